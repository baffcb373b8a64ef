//! Which names without indices commands leave alone.

ghost use Rattle.std.specs.Prelude.{◌≡◌, true, map};
ghost use Rattle.ctd_program.specs.calls.View as view;
ghost use Rattle.ctd_program.specs.calls.View.{assignment, boxed_target, command_tree, command_trees, var_tree};
ghost use Rattle.ctd_program.specs.inner.View.{boxed_separator};
ghost use Rattle.ctd_traps.specs.inner.Sparing.{Spares, SparesAll, SparesBetween, SparesEach, SparesLoop, SparesNames, SparesTarget, SparesTurns, SparesVariable};

use ctd_program::{Action, Assignment, Choice, Command, Loop, Var};
use ctd_token::Name;

/// Whether a variable is not a name without indices.
fn spares_variable(name: &[u8], v: &Var) -> bool
    ensures { result ≡ true → SparesVariable name.now (var_tree v.now) }
{
    if !v.indices.as_slice().is_empty() {
        return true;
    }
    v.name.as_slice() != name
}

/// The same of a target, if there is one.
fn spares_target(name: &[u8], target: &Option<Var>) -> bool
    ensures { result ≡ true → SparesTarget name.now (view.target target.now) }
{
    match target {
        Some(v) => spares_variable(name, v),
        None => true,
    }
}

/// The same of a counter, if there is one.
fn spares_counter(name: &[u8], counter: &Option<Box<Var>>) -> bool
    ensures { result ≡ true → SparesTarget name.now (boxed_target counter.now) }
{
    match counter {
        Some(v) => spares_variable(name, v),
        None => true,
    }
}

/// Whether SET leaves a name alone.
fn spares_assignments(name: &[u8], assignments: &[Assignment]) -> bool
    ensures { result ≡ true → SparesAll name.now (map assignment assignments.now) }
{
    for a in assignments {
        if !spares_variable(name, &a.target) {
            return false;
        }
    }
    true
}

/// Whether UNSET leaves a name alone.
fn spares_names(name: &[u8], names: &[Name]) -> bool
    ensures { result ≡ true → SparesNames name.now names.now }
{
    for other in names {
        if other.as_slice() == name {
            return false;
        }
    }
    true
}

/// Whether a command gives a name without indices no value, and takes none from it.
#[cycle(spares)]
fn spares(name: &[u8], command: &Command) -> bool
    ensures { result ≡ true → Spares name.now (command_tree command.now) }
{
    match &command.action {
        Action::Space | Action::Newline | Action::Eof => true,
        Action::String(_) | Action::Assert(_) => true,
        Action::Int(int) => spares_target(name, &int.target),
        Action::Regex(regex) => spares_target(name, &regex.target),
        Action::Set(assignments) => spares_assignments(name, assignments.as_slice()),
        Action::Unset(names) => spares_names(name, names.as_slice()),
        Action::Loop(repeated) => loop_spares(name, repeated),
        Action::If(choice) => {
            let Choice {
                then_do,
                else_do,
                ..
            } = &**choice;
            spares_each(name, then_do.as_slice()) && spares_each(name, else_do.as_slice())
        }
    }
}

/// Whether all commands of a list leave a name alone.
#[cycle(spares)]
fn spares_each(name: &[u8], commands: &[Command]) -> bool
    ensures { result ≡ true → SparesEach name.now (command_trees commands.now) }
{
    for command in commands {
        if !spares(name, command) {
            return false;
        }
    }
    true
}

/// Whether a separator, if there is one, leaves a name alone.
#[cycle(spares)]
fn spares_between(name: &[u8], between: &Option<Box<Command>>) -> bool
    ensures { result ≡ true → SparesBetween name.now (boxed_separator between.now) }
{
    match between {
        Some(command) => spares(name, command),
        None => true,
    }
}

/// Whether the separator and the body of a loop leave a name alone.
#[cycle(spares)]
pub(crate) fn turns_spare(name: &[u8], repeated: &Loop) -> bool
    ensures { result ≡ true → SparesTurns name.now repeated.now }
{
    let Loop { between, body, .. } = repeated;
    spares_between(name, between) && spares_each(name, body.as_slice())
}

/// Whether a loop leaves a name alone.
#[cycle(spares)]
pub(crate) fn loop_spares(name: &[u8], repeated: &Loop) -> bool
    ensures { result ≡ true → SparesLoop name.now repeated.now }
{
    spares_counter(name, &repeated.counter) && turns_spare(name, repeated)
}
