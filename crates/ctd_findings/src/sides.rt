//! Tests with two equal sides, or an array twice.

ghost use Rattle.std.specs.Prelude.{IsTrue};
ghost use Rattle.ctd_program.specs.calls.View.{test_tree};
ghost use Rattle.ctd_findings.specs.inner.Sides.{ComparesOneTree};

use crate::same::{has_variable, is_same};
use ctd_program::Test;
use ctd_token::Name;

/// Of how many names in one UNIQUE all are compared.
const MOST_NAMES: usize = 100;

/// Whether a test compares an expression that has a variable with itself.
pub(crate) fn has_same_sides(t: &Test) -> bool
    ensures one_tree { IsTrue result → ComparesOneTree (test_tree t.now) }
{
    match t {
        Test::Or(a, b) | Test::And(a, b) => has_same_sides(a) || has_same_sides(b),
        Test::Not(t) => has_same_sides(t),
        Test::Compare(_, a, b) => has_variable(a) && is_same(a, b),
        Test::Match(_) | Test::IsEof | Test::Unique(_) | Test::InArray(_, _) => false,
    }
}

/// Whether a name is one of these.
fn is_in(name: &Name, names: &[Name]) -> bool {
    names
        .iter()
        .any(|other| other.as_slice() == name.as_slice())
}

/// Whether one of these names stands twice.
fn stands_twice(names: &[Name]) -> bool {
    for (i, name) in names.iter().enumerate() {
        if is_in(name, &names[i + 1..]) {
            return true;
        }
    }
    false
}

/// Whether UNIQUE has a name twice.
pub(crate) fn has_same_names(t: &Test) -> bool {
    match t {
        Test::Or(a, b) | Test::And(a, b) => has_same_names(a) || has_same_names(b),
        Test::Not(t) => has_same_names(t),
        Test::Unique(names) => {
            let names = names.as_slice();
            names.len() <= MOST_NAMES && stands_twice(names)
        }
        _ => false,
    }
}
