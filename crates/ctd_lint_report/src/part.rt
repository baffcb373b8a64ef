//! What the parts of a line say: relations.

ghost use Rattle.std.specs.Prelude.{◌≡◌, ◌++◌, IfOk, OnOk};
ghost use Rattle.ctd_lint_report.specs.calls.Parts.{equal_relations, equality_of, filling_of, is_converse, is_same_term, line_relations, part_relations, parts_relations};

use crate::relation::{Relation, Sign, add_elements, add_fact, add_name, add_sums, gap_of};
use crate::setup::Form;
use ctd_elements::{Fact, Filling, Term};
use ctd_traps::Known;
use std::alloc::{AllocError, Global};

/// The elements that are known to have values, if what is known is that.
fn filling_of(known: Known) -> Option<Filling>
    ensures { result ≡ filling_of known }
{
    match known {
        Known::Beside(Fact::Filled(filling)) => Some(filling),
        _ => None,
    }
}

/// Adds what is known, by which elements are known to have values just before.
fn add_part(
    alloc: Global,
    form: Form,
    names: &[&[u8]],
    before: Option<Filling>,
    known: Known,
    relations: &mut Vec<Relation>,
) -> Result<(), AllocError>
    ensures { OnOk result (relations.new.items ≡ relations.old.items ++ part_relations form names.now before known) }
{
    match known {
        Known::Has(i, possible) | Known::MayHave(i, possible) => {
            add_name(alloc, form, names, i, possible, relations)
        }
        Known::Elements(i, possible) => {
            add_elements(alloc, form, names, i, possible, before, relations)
        }
        Known::Beside(fact) => add_fact(alloc, form, names, fact, relations),
    }
}

/// What is known, part by part.
fn parts_relations(
    alloc: Global,
    form: Form,
    names: &[&[u8]],
    parts: &[Known],
) -> Result<Vec<Relation>, AllocError>
    ensures { IfOk result (λ relations. relations.items ≡ parts_relations form names.now None parts.now) }
{
    let mut relations = Vec::new(alloc);
    let mut before = None;
    for part in parts {
        add_part(alloc, form, names, before, *part, &mut relations)?;
        before = filling_of(*part);
    }
    Ok(relations)
}

/// Whether two multiples of names are the same.
fn is_same_term(s: Option<Term>, t: Option<Term>) -> bool
    ensures { result ≡ is_same_term s t }
{
    match (s, t) {
        (None, None) => true,
        (Some(s), Some(t)) => s.name == t.name && s.times == t.times,
        _ => false,
    }
}

/// Whether one number is at most another, and that at most the first.
fn is_converse(k: Known, l: Known) -> bool
    ensures { result ≡ is_converse k l }
{
    match (k, l) {
        (Known::Beside(Fact::AtMost(a, b)), Known::Beside(Fact::AtMost(c, d))) => {
            is_same_term(a.term, d.term)
                && is_same_term(b.term, c.term)
                && gap_of(a, b) == gap_of(d, c)
        }
        _ => false,
    }
}

/// One number by another that it is equal to.
fn equality_of(
    alloc: Global,
    form: Form,
    names: &[&[u8]],
    known: Known,
) -> Result<Vec<Relation>, AllocError>
    ensures { IfOk result (λ relations. relations.items ≡ equality_of form names.now known) }
{
    let mut relations = Vec::new(alloc);
    if let Known::Beside(Fact::AtMost(a, b)) = known {
        add_sums(alloc, form, names, Sign::Equal, a, b, &mut relations)?;
    }
    Ok(relations)
}

/// What two parts say that are an equality, if they are one.
fn equal_relations(
    alloc: Global,
    form: Form,
    names: &[&[u8]],
    parts: &[Known],
) -> Result<Vec<Relation>, AllocError>
    ensures { IfOk result (λ relations. relations.items ≡ equal_relations form names.now parts.now) }
{
    match parts {
        [first, second] if is_converse(*first, *second) => {
            equality_of(alloc, form, names, *first)
        }
        _ => Ok(Vec::new(alloc)),
    }
}

/// What the parts of a line say.
pub(crate) fn line_relations(
    alloc: Global,
    form: Form,
    names: &[&[u8]],
    parts: &[Known],
) -> Result<Vec<Relation>, AllocError>
    ensures { IfOk result (λ relations. relations.items ≡ line_relations form names.now parts.now) }
{
    let equal = equal_relations(alloc, form, names, parts)?;
    if !equal.is_empty() {
        return Ok(equal);
    }
    parts_relations(alloc, form, names, parts)
}
