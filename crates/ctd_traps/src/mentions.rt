//! The names in a command, each with what the command does with it.

use crate::block::CommandInBlock;
use crate::collector::Collector;
use ctd_program::{
    Action, Assignment, Command, Element, Expr, IntArguments, Loop, LoopGuard, Test, Var,
};
use ctd_token::Name;
use std::alloc::{AllocError, Global};

/// What a command does with a name.
#[derive(Clone, Copy)]
pub enum Use {
    /// It reads its value.
    Reads,
    /// SET reads it for the variable of the same name, in the value or in the indices.
    ReadsForItself,
    /// UNIQUE or INARRAY looks at all its values.
    LooksAtAll,
    /// UNSET forgets its values.
    Forgets,
    /// INT, REGEX or SET gives it, or an element of it, a value.
    Sets,
    /// A loop counts in it, or in an element of it.
    Counts,
}

/// A name in a command, its indices there, and what the command does with it.
#[derive(Clone, Copy)]
pub struct MentionedName<'p> {
    pub name: &'p Name,
    pub indices: &'p [Expr],
    pub used_as: Use,
}

/// Adds a name without indices.
fn list_one<'p>(used_as: Use, name: &'p Name, found: &mut Collector<MentionedName<'p>>) {
    found.add(MentionedName {
        name,
        indices: &[],
        used_as,
    });
}

/// Adds names.
fn list_each<'p>(used_as: Use, names: &'p [Name], found: &mut Collector<MentionedName<'p>>) {
    for name in names {
        list_one(used_as, name, found);
    }
}

/// How a name is read, where an assignment to a variable reads it or something else does.
fn read_use(assigned: Option<&Name>, name: &Name) -> Use {
    match assigned {
        Some(assigned) if assigned.as_slice() == name.as_slice() => Use::ReadsForItself,
        _ => Use::Reads,
    }
}

/// Adds the names in an expression.
#[cycle(expr_mentions)]
fn list_expr<'p>(assigned: Option<&Name>, e: &'p Expr, found: &mut Collector<MentionedName<'p>>) {
    match e {
        Expr::Name(name) => list_one(read_use(assigned, name), name, found),
        Expr::Numeral(_) | Expr::Text(_) => (),
        Expr::Element(element) => {
            let Element { name, indices } = &**element;
            let indices = indices.as_slice();
            found.add(MentionedName {
                name,
                indices,
                used_as: read_use(assigned, name),
            });
            list_indices(assigned, indices, found)
        }
        Expr::Strlen(e) | Expr::Minus(e) => list_expr(assigned, e, found),
        Expr::Add(a, b)
        | Expr::Sub(a, b)
        | Expr::Mul(a, b)
        | Expr::Div(a, b)
        | Expr::Rem(a, b)
        | Expr::Pow(a, b) => {
            list_expr(assigned, a, found);
            list_expr(assigned, b, found)
        }
    }
}

/// Adds the names in indices.
#[cycle(expr_mentions)]
fn list_indices<'p>(
    assigned: Option<&Name>,
    indices: &'p [Expr],
    found: &mut Collector<MentionedName<'p>>,
) {
    for index in indices {
        list_expr(assigned, index, found);
    }
}

/// Adds the names in two expressions.
fn list_both<'p>(a: &'p Expr, b: &'p Expr, found: &mut Collector<MentionedName<'p>>) {
    list_expr(None, a, found);
    list_expr(None, b, found)
}

/// Adds the names in what INARRAY takes.
fn list_searched<'p>(e: &'p Expr, name: &'p Name, found: &mut Collector<MentionedName<'p>>) {
    list_expr(None, e, found);
    list_one(Use::LooksAtAll, name, found)
}

/// Adds the names in a test.
fn list_test<'p>(t: &'p Test, found: &mut Collector<MentionedName<'p>>) {
    match t {
        Test::Or(a, b) | Test::And(a, b) => {
            list_test(a, found);
            list_test(b, found)
        }
        Test::Not(t) => list_test(t, found),
        Test::Compare(_, a, b) => list_both(a, b, found),
        Test::Match(e) => list_expr(None, e, found),
        Test::IsEof => (),
        Test::Unique(names) => list_each(Use::LooksAtAll, names.as_slice(), found),
        Test::InArray(e, name) => list_searched(e, name, found),
    }
}

/// Adds the names in a variable that is used in this way.
fn list_variable<'p>(
    used_as: Use,
    assigned: Option<&Name>,
    v: &'p Var,
    found: &mut Collector<MentionedName<'p>>,
) {
    let indices = v.indices.as_slice();
    found.add(MentionedName {
        name: &v.name,
        indices,
        used_as,
    });
    list_indices(assigned, indices, found)
}

/// Adds the names in the variable of INT or REGEX, if there is one.
fn list_target<'p>(variable: &'p Option<Var>, found: &mut Collector<MentionedName<'p>>) {
    match variable {
        Some(v) => list_variable(Use::Sets, None, v, found),
        None => (),
    }
}

/// Adds the names in what INT takes.
fn list_int<'p>(int: &'p IntArguments, found: &mut Collector<MentionedName<'p>>) {
    list_both(&int.low, &int.high, found);
    list_target(&int.target, found)
}

/// Adds the names in an assignment.
fn list_assignment<'p>(a: &'p Assignment, found: &mut Collector<MentionedName<'p>>) {
    let Assignment { target, value } = a;
    let assigned = Some(&target.name);
    list_variable(Use::Sets, assigned, target, found);
    list_expr(assigned, value, found)
}

/// Adds the names in assignments.
fn list_assignments<'p>(assignments: &'p [Assignment], found: &mut Collector<MentionedName<'p>>) {
    for a in assignments {
        list_assignment(a, found);
    }
}

/// Adds the names in a counter, if there is one.
fn list_counter<'p>(counter: &'p Option<Box<Var>>, found: &mut Collector<MentionedName<'p>>) {
    match counter {
        Some(v) => list_variable(Use::Counts, None, v, found),
        None => (),
    }
}

/// Adds the names in what says how long a loop goes on.
fn list_guard<'p>(guard: &'p LoopGuard, found: &mut Collector<MentionedName<'p>>) {
    match guard {
        LoopGuard::Times(count) => list_expr(None, count, found),
        LoopGuard::While(t) => list_test(t, found),
    }
}

/// Adds the names in the head of a loop: in its counter, and in what says how long it goes on.
fn list_head<'p>(repeated: &'p Loop, found: &mut Collector<MentionedName<'p>>) {
    list_counter(&repeated.counter, found);
    list_guard(&repeated.guard, found)
}

/// Adds the names in a command, in the order of the text.
pub fn list_mentions<'p>(command: &'p Command, found: &mut Collector<MentionedName<'p>>) {
    match &command.action {
        Action::Space | Action::Newline | Action::Eof => (),
        Action::Int(int) => list_int(int, found),
        Action::String(e) => list_expr(None, e, found),
        Action::Regex(regex) => list_target(&regex.target, found),
        Action::Assert(t) => list_test(t, found),
        Action::Set(assignments) => list_assignments(assignments.as_slice(), found),
        Action::Unset(names) => list_each(Use::Forgets, names.as_slice(), found),
        Action::Loop(repeated) => list_head(repeated, found),
        Action::If(choice) => list_test(&choice.condition, found),
    }
}

/// The names in a command.
pub fn mentions_of<'p>(
    alloc: Global,
    command: &'p Command,
) -> Result<Vec<MentionedName<'p>>, AllocError> {
    let mut found = Collector::new(alloc);
    list_mentions(command, &mut found);
    found.finish()
}

/// The names in some commands.
pub fn all_mentions<'p>(
    alloc: Global,
    commands: &[CommandInBlock<'p>],
) -> Result<Vec<MentionedName<'p>>, AllocError> {
    let mut found = Collector::new(alloc);
    for entry in commands {
        list_mentions(entry.command, &mut found);
    }
    found.finish()
}
