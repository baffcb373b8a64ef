//! Loops: their counters, and what their bodies set.

use ctd_program::{Action, Assignment, Choice, Command, Expr, Loop, LoopGuard, Var};

/// Whether an expression is a numeral.
fn is_numeral(e: &Expr) -> bool {
    matches!(e, Expr::Numeral(_))
}

/// Whether a variable is an element whose indices are numerals.
fn is_fixed(variable: &Option<Var>) -> bool {
    let Some(v) = variable else {
        return false;
    };
    let indices = v.indices.as_slice();
    !indices.is_empty() && indices.iter().all(|index| is_numeral(index))
}

/// Whether INT or REGEX sets an element whose indices are numerals.
fn sets_fixed(command: &Command) -> bool {
    match &command.action {
        Action::Int(int) => is_fixed(&int.target),
        Action::Regex(regex) => is_fixed(&regex.target),
        _ => false,
    }
}

/// Whether one of these commands does.
pub(crate) fn some_set_fixed(commands: &[Command]) -> bool {
    commands.iter().any(|command| sets_fixed(command))
}

/// Whether a variable is an element of an array.
pub(crate) fn is_element(variable: &Var) -> bool {
    !variable.indices.as_slice().is_empty()
}

/// Whether two variables may be the same: they have one name, and both are elements or neither is.
fn may_be_same(a: &Var, b: &Var) -> bool {
    a.name.as_slice() == b.name.as_slice() && is_element(a) == is_element(b)
}

/// Whether there is a target, and it may be this variable.
fn is_target(variable: &Var, target: &Option<Var>) -> bool {
    matches!(target, Some(v) if may_be_same(v, variable))
}

/// Whether there is a counter, and it may be this variable.
fn is_counter(variable: &Var, counter: &Option<Box<Var>>) -> bool {
    matches!(counter, Some(v) if may_be_same(v, variable))
}

/// Whether an assignment may set this variable.
fn assigns(variable: &Var, assignments: &[Assignment]) -> bool {
    assignments.iter().any(|a| may_be_same(&a.target, variable))
}

/// Whether a command, or one in it, may give this variable a value.
///
/// It makes no list, since it is asked of each loop with a counter, and loops may stand in loops.
#[cycle(is_set)]
pub(crate) fn is_set_by(variable: &Var, command: &Command) -> bool {
    match &command.action {
        Action::Int(int) => is_target(variable, &int.target),
        Action::Regex(regex) => is_target(variable, &regex.target),
        Action::Set(assignments) => assigns(variable, assignments.as_slice()),
        Action::Loop(repeated) => {
            let Loop {
                counter,
                between,
                body,
                ..
            } = &**repeated;
            is_counter(variable, counter)
                | is_set_between(variable, between)
                | is_set_in(variable, body.as_slice())
        }
        Action::If(choice) => {
            let Choice {
                then_do,
                else_do,
                ..
            } = &**choice;
            is_set_in(variable, then_do.as_slice()) | is_set_in(variable, else_do.as_slice())
        }
        _ => false,
    }
}

/// Whether a separator does.
#[cycle(is_set)]
fn is_set_between(variable: &Var, between: &Option<Box<Command>>) -> bool {
    match between {
        Some(command) => is_set_by(variable, command),
        None => false,
    }
}

/// Whether one of these commands does.
#[cycle(is_set)]
pub(crate) fn is_set_in(variable: &Var, commands: &[Command]) -> bool {
    for command in commands {
        if is_set_by(variable, command) {
            return true;
        }
    }
    false
}

/// A loop, if a command is one.
pub(crate) fn loop_of(command: &Command) -> Option<&Loop> {
    match &command.action {
        Action::Loop(repeated) => Some(&**repeated),
        _ => None,
    }
}

/// The commands that each turn of a loop does: none where a command is no loop.
pub(crate) fn loop_body(command: &Command) -> &[Command] {
    loop_of(command).map_or(&[], |repeated| repeated.body.as_slice())
}

/// The counter of a loop, if it has one.
fn own_counter(repeated: &Loop) -> Option<&Var> {
    repeated.counter.as_ref().map(|v| &**v)
}

/// The counter of a loop, if a command is one and has one.
pub(crate) fn counter_of(command: &Command) -> Option<&Var> {
    own_counter(loop_of(command)?)
}

/// The counter of REPI.
pub(crate) fn turns_counter(command: &Command) -> Option<&Var> {
    let repeated = loop_of(command)?;
    match &repeated.guard {
        LoopGuard::Times(_) => own_counter(repeated),
        LoopGuard::While(_) => None,
    }
}
