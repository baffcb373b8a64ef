//! Parameters: names that SET gives one literal at the top of a program, as a default for presets, and that nothing else sets. Another group of data
//! may have another value, so the answers of their tests are no mistakes.

use crate::same::has_variable;
use ctd_program::{Action, Assignment, Command, Expr, Test};
use ctd_traps::{MentionedName, Role, has_role};
use std::alloc::{AllocError, Global};
use std::collections::BTreeSet;

/// The names that get a value, or lose theirs, at two places at least.
fn names_set_again<'p>(
    alloc: Global,
    mentions: &[MentionedName<'p>],
) -> Result<BTreeSet<&'p [u8]>, AllocError> {
    let mut once = BTreeSet::new(alloc);
    let mut again = BTreeSet::new(alloc);
    for m in mentions {
        let changes = has_role(Role::Gives, m) || has_role(Role::Forgets, m);
        if changes && !once.insert(m.name.as_slice())? {
            again.insert(m.name.as_slice())?;
        }
    }
    Ok(again)
}

/// Whether an assignment gives a name without indices a literal.
fn gives_literal(a: &Assignment) -> bool {
    let is_literal = match &a.value {
        Expr::Numeral(_) | Expr::Text(_) => true,
        Expr::Minus(e) => matches!(&**e, Expr::Numeral(_)),
        _ => false,
    };
    is_literal && a.target.indices.as_slice().is_empty()
}

/// The parameters of a program with these mentions of names: they are set before the first command that is neither SET nor ASSERT.
pub(crate) fn parameters_of<'p>(
    alloc: Global,
    commands: &'p [Command],
    mentions: &[MentionedName<'p>],
) -> Result<BTreeSet<&'p [u8]>, AllocError> {
    let again = names_set_again(alloc, mentions)?;
    let mut parameters = BTreeSet::new(alloc);
    for command in commands {
        match &command.action {
            Action::Set(assignments) => {
                for a in assignments.as_slice() {
                    let name = a.target.name.as_slice();
                    if gives_literal(a) && !again.contains(&name) {
                        parameters.insert(name)?;
                    }
                }
            }
            Action::Assert(_) => (),
            _ => break,
        }
    }
    Ok(parameters)
}

/// Whether all variables of an expression are parameters.
fn has_parameters_alone<'p>(e: &'p Expr, parameters: &BTreeSet<&'p [u8]>) -> bool {
    match e {
        Expr::Name(name) => parameters.contains(&name.as_slice()),
        Expr::Element(_) => false,
        Expr::Numeral(_) | Expr::Text(_) => true,
        Expr::Strlen(e) | Expr::Minus(e) => has_parameters_alone(e, parameters),
        Expr::Add(a, b) | Expr::Sub(a, b) | Expr::Mul(a, b) => {
            has_parameters_alone(a, parameters) && has_parameters_alone(b, parameters)
        }
        Expr::Div(a, b) | Expr::Rem(a, b) | Expr::Pow(a, b) => {
            has_parameters_alone(a, parameters) && has_parameters_alone(b, parameters)
        }
    }
}

/// Whether a comparison in a test asks for parameters and for nothing else.
pub(crate) fn asks_for_parameters<'p>(t: &'p Test, parameters: &BTreeSet<&'p [u8]>) -> bool {
    match t {
        Test::Or(a, b) | Test::And(a, b) => {
            asks_for_parameters(a, parameters) || asks_for_parameters(b, parameters)
        }
        Test::Not(t) => asks_for_parameters(t, parameters),
        Test::Compare(_, a, b) => {
            (has_variable(a) || has_variable(b))
                && has_parameters_alone(a, parameters)
                && has_parameters_alone(b, parameters)
        }
        Test::Match(e) => has_variable(e) && has_parameters_alone(e, parameters),
        Test::IsEof | Test::Unique(_) | Test::InArray(_, _) => false,
    }
}
