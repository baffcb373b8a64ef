//! Where the names of a program are told: where they are given values.

use crate::names::{NameSet, index_of};
use ctd_program::{Action, Choice, Command, Element, Expr, Loop, Var};
use ctd_token::Place;
use std::alloc::{AllocError, Global};

/// What is told at the end of each turn of a loop, or in the end of the program, which has no place: the names without indices and the arrays that are
/// given values there, in the order of the text. A scope in a loop stands by its index in the one around it.
#[derive(Drop)]
pub(crate) struct Scope {
    pub(crate) place: Option<Place>,
    pub(crate) around: Option<usize>,
    pub(crate) names: Vec<usize>,
    pub(crate) arrays: Vec<usize>,
}

/// The names of a program, and memory.
#[derive(Clone, Copy)]
struct Listing<'n> {
    alloc: Global,
    names: &'n [&'n [u8]],
}

/// What a block gives values: names without indices, each once, and elements of arrays.
#[derive(Drop)]
struct Given<'p> {
    names: Vec<usize>,
    seen: NameSet,
    elements: Vec<&'p Var>,
}

/// Whether an expression has one of some names.
#[cycle(expression)]
fn has_one(listing: Listing<'_>, some: &NameSet, e: &Expr) -> bool {
    match e {
        Expr::Name(name) => is_one(listing, some, name.as_slice()),
        Expr::Numeral(_) | Expr::Text(_) => false,
        Expr::Element(element) => {
            let Element { name, indices } = &**element;
            is_one(listing, some, name.as_slice()) || have_one(listing, some, indices.as_slice())
        }
        Expr::Strlen(e) | Expr::Minus(e) => has_one(listing, some, e),
        Expr::Add(a, b)
        | Expr::Sub(a, b)
        | Expr::Mul(a, b)
        | Expr::Div(a, b)
        | Expr::Rem(a, b)
        | Expr::Pow(a, b) => has_one(listing, some, a) || has_one(listing, some, b),
    }
}

/// Whether expressions have one of some names.
#[cycle(expression)]
fn have_one(listing: Listing<'_>, some: &NameSet, expressions: &[Expr]) -> bool {
    for e in expressions {
        if has_one(listing, some, e) {
            return true;
        }
    }
    false
}

/// Whether a name is one of some.
fn is_one(listing: Listing<'_>, some: &NameSet, name: &[u8]) -> bool {
    match index_of(listing.names, name) {
        Some(i) => some.has(i),
        None => false,
    }
}

/// Adds a variable that a block gives a value.
fn give<'p>(
    listing: Listing<'_>,
    variable: &'p Var,
    given: &mut Given<'p>,
) -> Result<(), AllocError> {
    if !variable.indices.as_slice().is_empty() {
        given.elements.push(variable)?;
        return Ok(());
    }
    if let Some(i) = index_of(listing.names, variable.name.as_slice()) {
        if given.seen.add(i) {
            given.names.push(i)?;
        }
    }
    Ok(())
}

/// Adds the variable of INT or REGEX, if there is one.
fn give_target<'p>(
    listing: Listing<'_>,
    target: &'p Option<Var>,
    given: &mut Given<'p>,
) -> Result<(), AllocError> {
    match target {
        Some(variable) => give(listing, variable, given),
        None => Ok(()),
    }
}

/// The arrays of some elements that are complete at the end of a turn. Those whose indices have a varying name are left to the block around.
fn complete_arrays<'p>(
    listing: Listing<'_>,
    varying: &NameSet,
    elements: &[&'p Var],
    left: &mut Vec<&'p Var>,
) -> Result<Vec<usize>, AllocError> {
    let mut arrays = Vec::new(listing.alloc);
    let mut seen = NameSet::none_of(listing.alloc, listing.names.len())?;
    for variable in elements {
        if have_one(listing, varying, variable.indices.as_slice()) {
            left.push(*variable)?;
        } else if let Some(i) = index_of(listing.names, variable.name.as_slice()) {
            if seen.add(i) {
                arrays.push(i)?;
            }
        }
    }
    Ok(arrays)
}

/// Adds what commands give values, and the scopes of the loops in them. The scope that they are in stands at an index.
#[cycle(block)]
fn list_block<'p>(
    listing: Listing<'_>,
    commands: &'p [Command],
    index: usize,
    given: &mut Given<'p>,
    scopes: &mut Vec<Scope>,
) -> Result<(), AllocError> {
    for command in commands {
        list_command(listing, command, index, given, scopes)?;
    }
    Ok(())
}

/// Adds what a command gives values, and the scopes of the loops in it.
#[cycle(block)]
fn list_command<'p>(
    listing: Listing<'_>,
    command: &'p Command,
    index: usize,
    given: &mut Given<'p>,
    scopes: &mut Vec<Scope>,
) -> Result<(), AllocError> {
    match &command.action {
        Action::Loop(repeated) => {
            list_loop(listing, command.place, repeated, index, given, scopes)
        }
        Action::If(choice) => {
            let Choice {
                then_do,
                else_do,
                ..
            } = &**choice;
            list_block(listing, then_do.as_slice(), index, given, scopes)?;
            list_block(listing, else_do.as_slice(), index, given, scopes)
        }
        Action::Int(int) => give_target(listing, &int.target, given),
        Action::Regex(regex) => give_target(listing, &regex.target, given),
        Action::Set(assignments) => {
            for assignment in assignments.as_slice() {
                give(listing, &assignment.target, given)?;
            }
            Ok(())
        }
        Action::Space | Action::Newline | Action::Eof => Ok(()),
        Action::String(_) | Action::Assert(_) | Action::Unset(_) => Ok(()),
    }
}

/// Adds the scope of a loop and those of the loops in it. In its body vary its counter and the names that it gives values.
#[cycle(block)]
fn list_loop<'p>(
    listing: Listing<'_>,
    place: Place,
    repeated: &'p Loop,
    around: usize,
    given: &mut Given<'p>,
    scopes: &mut Vec<Scope>,
) -> Result<(), AllocError> {
    let Loop { counter, body, .. } = repeated;
    let index = scopes.len();
    scopes.push(empty_scope(listing.alloc))?;
    let mut own = nothing_given(listing)?;
    list_block(listing, body.as_slice(), index, &mut own, scopes)?;
    let Given {
        names,
        seen: mut varying,
        elements,
    } = own;
    if let Some(variable) = counter {
        if let Some(i) = index_of(listing.names, variable.name.as_slice()) {
            varying.add(i);
        }
    }
    let arrays = complete_arrays(listing, &varying, elements.as_slice(), &mut given.elements)?;
    let scope = Scope {
        place: Some(place),
        around: Some(around),
        names,
        arrays,
    };
    put(scopes, index, scope);
    Ok(())
}

/// A scope of which nothing is known yet.
fn empty_scope(alloc: Global) -> Scope {
    Scope {
        place: None,
        around: None,
        names: Vec::new(alloc),
        arrays: Vec::new(alloc),
    }
}

/// No names and no elements.
fn nothing_given<'p>(listing: Listing<'_>) -> Result<Given<'p>, AllocError> {
    Ok(Given {
        names: Vec::new(listing.alloc),
        seen: NameSet::none_of(listing.alloc, listing.names.len())?,
        elements: Vec::new(listing.alloc),
    })
}

/// Puts a scope where an empty one stands.
fn put(scopes: &mut Vec<Scope>, index: usize, scope: Scope) {
    if index < scopes.len() {
        scopes[index] = scope;
    }
}

/// The scopes of a program: first its own, and then those of its loops in the order of the text.
pub(crate) fn scopes_of(
    alloc: Global,
    names: &[&[u8]],
    commands: &[Command],
) -> Result<Vec<Scope>, AllocError> {
    let listing = Listing { alloc, names };
    let mut scopes = Vec::new(alloc);
    scopes.push(empty_scope(alloc))?;
    let mut given = nothing_given(listing)?;
    list_block(listing, commands, 0, &mut given, &mut scopes)?;
    let none = NameSet::none_of(alloc, 0)?;
    let mut left = Vec::new(alloc);
    let arrays = complete_arrays(listing, &none, given.elements.as_slice(), &mut left)?;
    let Given { names, .. } = given;
    let scope = Scope {
        place: None,
        around: None,
        names,
        arrays,
    };
    put(&mut scopes, 0, scope);
    Ok(scopes)
}

/// Which of some names may stand beside those of a scope: those that are given values there or in a block around.
pub(crate) fn near_names(
    alloc: Global,
    told: &NameSet,
    count: usize,
    scopes: &[Scope],
    index: usize,
) -> Result<NameSet, AllocError> {
    let mut near = NameSet::none_of(alloc, count)?;
    let mut next = Some(index);
    for _ in scopes {
        let Some(scope) = next.and_then(|i| scopes.get(i)) else {
            return Ok(near);
        };
        for name in scope.names.as_slice() {
            if told.has(*name) {
                near.add(*name);
            }
        }
        next = scope.around;
    }
    Ok(near)
}
