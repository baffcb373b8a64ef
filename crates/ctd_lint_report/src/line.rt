//! What a line of relations says: `1 <= from < to <= n`.

ghost use Rattle.std.specs.Prelude.{◌≡◌, ◌++◌, IfOk, None, OnOk, option_map};
ghost use Rattle.std.specs.List.{list_any};
ghost use Rattle.ctd_lint_report.specs.calls.Guarantees.{chain_text, condition_text, left_text, line_text, may_lack, relation_text, said_by, shared_condition, sign_text};

use crate::part::line_relations;
use crate::relation::{Relation, Sign};
use crate::setup::Form;
use ctd_traps::Known;
use std::alloc::{AllocError, Global};

/// The text of a sign.
pub(crate) fn sign_text(sign: Sign) -> &'static str
    ensures { result.now ≡ sign_text sign }
{
    match sign {
        Sign::AtMost => "<=",
        Sign::Less => "<",
        Sign::Equal => "=",
        Sign::Unequal => "!=",
    }
}

/// Appends what stands left of a sign, by what stands right of the sign before.
fn write_left(before: Option<&[u8]>, left: &[u8], text: &mut Vec<u8>) -> Result<(), AllocError>
    ensures { OnOk result (text.new.items ≡ text.old.items ++ left_text (option_map (λ b. b.now) before.entry) left.now) }
{
    let Some(before) = before else {
        return text.extend_from_slice(left);
    };
    if before == left {
        return Ok(());
    }
    text.extend_from_slice(b", ")?;
    text.extend_from_slice(left)
}

/// Appends a relation behind others.
fn write_relation(
    before: Option<&[u8]>,
    relation: &Relation,
    text: &mut Vec<u8>,
) -> Result<(), AllocError>
    ensures { OnOk result (text.new.items ≡ text.old.items ++ relation_text (option_map (λ b. b.now) before.entry) relation.now) }
{
    write_left(before, relation.left.as_slice(), text)?;
    text.extend_from_slice(b" ")?;
    text.extend_from_slice(sign_text(relation.sign).as_bytes())?;
    text.extend_from_slice(b" ")?;
    text.extend_from_slice(relation.right.as_slice())
}

/// Appends relations, in a chain where one begins with what the one before ends with.
fn write_chain(relations: &[Relation], text: &mut Vec<u8>) -> Result<(), AllocError>
    ensures { OnOk result (text.new.items ≡ text.old.items ++ chain_text None relations.now) }
{
    let mut before = None;
    for relation in relations {
        write_relation(before, relation, text)?;
        before = Some(relation.right.as_slice());
    }
    Ok(())
}

/// Whether a name may have no value.
fn may_lack(known: &Known) -> bool
    ensures { result ≡ may_lack known.now }
{
    matches!(known, Known::MayHave(..))
}

/// Whether one of some names may have no value.
fn some_may_lack(parts: &[Known]) -> bool
    ensures { result ≡ list_any may_lack parts.now }
{
    for part in parts {
        if may_lack(part) {
            return true;
        }
    }
    false
}

/// Of which values a line is so, if not of all, where it has more than one part.
fn shared_condition(parts: &[Known]) -> &'static str
    ensures { result.now ≡ shared_condition parts.now }
{
    if some_may_lack(parts) {
        " (where they have values)"
    } else {
        ""
    }
}

/// Of which values a line is so, if not of all.
fn condition_text(parts: &[Known]) -> &'static str
    ensures { result.now ≡ condition_text parts.now }
{
    match parts {
        [Known::MayHave(..)] => " (where it has a value)",
        [Known::Elements(..)] => " (those that have a value)",
        _ => shared_condition(parts),
    }
}

/// What a line says, by its relations: nothing where these are none.
fn said_by(alloc: Global, relations: &[Relation], parts: &[Known]) -> Result<Vec<u8>, AllocError>
    ensures { IfOk result (λ text. text.items ≡ said_by relations.now parts.now) }
{
    let mut text = Vec::new(alloc);
    if relations.is_empty() {
        return Ok(text);
    }
    write_chain(relations, &mut text)?;
    text.extend_from_slice(condition_text(parts).as_bytes())?;
    Ok(text)
}

/// What a line says.
pub(crate) fn line_text(
    alloc: Global,
    names: &[&[u8]],
    parts: &[Known],
) -> Result<Vec<u8>, AllocError>
    ensures { IfOk result (λ text. text.items ≡ line_text names.now parts.now) }
{
    let relations = line_relations(alloc, Form::Text, names, parts)?;
    said_by(alloc, relations.as_slice(), parts)
}
