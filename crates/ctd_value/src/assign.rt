//! Values for variables (docs/LANGUAGE.md, SET).

ghost use Rattle.std.specs.Prelude.{◌≡◌, OnErr};
ghost use Rattle.ctd_program.specs.calls.View.{expr_tree, var_tree};
ghost use Rattle.ctd_store.specs.calls.ValueRef.{value_of_ref};
ghost use Rattle.ctd_store.specs.declared.value.Value.TheVariants as values;
ghost use Rattle.ctd_value.specs.calls.Fault.{Gives};
ghost use Rattle.ctd_value.specs.calls.Lending.{map_ok};
ghost use Rattle.ctd_value.specs.calls.Assignments.{with_variable, with_expression};

use crate::at_hand::fast_name_index;
use crate::expression::{eval, fast_i64, fast_index, index_values};
use crate::fault::EvalFault;
use ctd_program::{Expr, Var};
use ctd_store::{Index, Store, ValueRef, as_i64};
use std::alloc::Global;

/// Evaluates the indices of a variable and sets it to a number; a pinned variable stays as it is. After a fault the variables are as they
/// were.
#[inline(always)]
pub fn set_number(alloc: Global, v: &Var, n: i128, store: &mut Store) -> Result<(), EvalFault>
    ensures value { Gives (map_ok (λ _. store.new) result) (with_variable (var_tree v.now) (values.Int n) store.old) }
    ensures err { OnErr result (store.new ≡ store.old) }
{
    if v.indices.as_slice().is_empty() {
        if let Some(n) = as_i64(n) {
            if store.put_number(&v.name, n) {
                return Ok(());
            }
        }
    }
    set_any_to_number(alloc, v, n, store)?;
    Ok(())
}

/// Sets a variable to a number, whatever its indices and the size of the number. Out of line: keeps `set_number` small.
#[inline(never)]
fn set_any_to_number(alloc: Global, v: &Var, n: i128, store: &mut Store) -> Result<(), EvalFault>
    ensures value { Gives (map_ok (λ _. store.new) result) (with_variable (var_tree v.now) (values.Int n) store.old) }
    ensures err { OnErr result (store.new ≡ store.old) }
{
    match v.indices.as_slice() {
        [index] => match fast_name_index(index, store) {
            Some(at) => Ok(store.assign_at(alloc, &v.name, Index::One(at), ValueRef::Int(n))?),
            None => set_number_at_any(alloc, v, n, store),
        },
        _ => set_cell_to_number(alloc, v, n, store),
    }
}

/// Evaluates the indices of a variable and sets it to a string; a pinned variable stays as it is. After a fault the variables are as they
/// were. The bytes are copied, where they fit into the room of the string that the variable has.
pub fn set_text(alloc: Global, v: &Var, bytes: &[u8], store: &mut Store) -> Result<(), EvalFault>
    ensures value { Gives (map_ok (λ _. store.new) result) (with_variable (var_tree v.now) (values.Text bytes.now) store.old) }
    ensures err { OnErr result (store.new ≡ store.old) }
{
    set_variable(alloc, v, ValueRef::Text(bytes), store)
}

/// Evaluates an expression and then the indices of a variable, which gets the value; a pinned variable stays as it is. After a
/// fault the variables are as they were.
pub fn set_expression(alloc: Global, v: &Var, e: &Expr, store: &mut Store) -> Result<(), EvalFault>
    ensures value { Gives (map_ok (λ _. store.new) result) (with_expression (var_tree v.now) (expr_tree e.now) store.old) }
    ensures err { OnErr result (store.new ≡ store.old) }
{
    match fast_i64(e, store) {
        Some(n) => set_number(alloc, v, n as i128, store)?,
        None => set_to_any_expression(alloc, v, e, store)?,
    }
    Ok(())
}

/// Sets a variable to the value of an expression that may be a string or a large number. Out of line: keeps `set_expression` small.
#[inline(never)]
fn set_to_any_expression(
    alloc: Global,
    v: &Var,
    e: &Expr,
    store: &mut Store,
) -> Result<(), EvalFault>
    ensures value { Gives (map_ok (λ _. store.new) result) (with_expression (var_tree v.now) (expr_tree e.now) store.old) }
    ensures err { OnErr result (store.new ≡ store.old) }
{
    let value = eval(alloc, e, store)?;
    set_variable(alloc, v, ValueRef::of(&value), store)
}

/// Sets a variable to a number whose two indices are names, or one with indices of any kind. Out of line: keeps the caller small.
#[inline(never)]
fn set_cell_to_number(alloc: Global, v: &Var, n: i128, store: &mut Store) -> Result<(), EvalFault>
    ensures value { Gives (map_ok (λ _. store.new) result) (with_variable (var_tree v.now) (values.Int n) store.old) }
    ensures err { OnErr result (store.new ≡ store.old) }
{
    match v.indices.as_slice() {
        [row, column] => match (fast_name_index(row, store), fast_name_index(column, store)) {
            (Some(y), Some(x)) => {
                Ok(store.assign_at(alloc, &v.name, Index::Two(y, x), ValueRef::Int(n))?)
            }
            _ => set_number_at_any(alloc, v, n, store),
        },
        _ => set_number_at_any(alloc, v, n, store),
    }
}

/// Sets a variable with indices of any kind to a number. Out of line: keeps the callers small.
#[inline(never)]
fn set_number_at_any(alloc: Global, v: &Var, n: i128, store: &mut Store) -> Result<(), EvalFault>
    ensures value { Gives (map_ok (λ _. store.new) result) (with_variable (var_tree v.now) (values.Int n) store.old) }
    ensures err { OnErr result (store.new ≡ store.old) }
{
    set_variable(alloc, v, ValueRef::Int(n), store)
}

/// Sets a variable to a value, at one number or two without a list of them.
#[inline(always)]
fn set_variable(
    alloc: Global,
    v: &Var,
    value: ValueRef<'_>,
    store: &mut Store,
) -> Result<(), EvalFault>
    ensures value { Gives (map_ok (λ _. store.new) result) (with_variable (var_tree v.now) (value_of_ref value.entry) store.old) }
    ensures err { OnErr result (store.new ≡ store.old) }
{
    match v.indices.as_slice() {
        [] => Ok(store.assign_at(alloc, &v.name, Index::Scalar, value)?),
        [index] => match fast_index(index, store) {
            Some(at) => Ok(store.assign_at(alloc, &v.name, Index::One(at), value)?),
            None => set_out_of_line(alloc, v, value, store),
        },
        [row, column] => match (fast_index(row, store), fast_index(column, store)) {
            (Some(m), Some(n)) => Ok(store.assign_at(alloc, &v.name, Index::Two(m, n), value)?),
            _ => set_out_of_line(alloc, v, value, store),
        },
        _ => set_out_of_line(alloc, v, value, store),
    }
}

/// Sets a variable to a value, by the list of the values of its indices. In line, so that only this rare way makes room for what it passes
/// on.
#[inline(always)]
fn set_out_of_line(
    alloc: Global,
    v: &Var,
    value: ValueRef<'_>,
    store: &mut Store,
) -> Result<(), EvalFault>
    ensures value { Gives (map_ok (λ _. store.new) result) (with_variable (var_tree v.now) (value_of_ref value.entry) store.old) }
    ensures err { OnErr result (store.new ≡ store.old) }
{
    set_by_list(alloc, v, value, store)
}

/// Sets a variable to a value, by the list of the values of its indices. Out of line: keeps the caller small.
#[cold]
#[inline(never)]
fn set_by_list(
    alloc: Global,
    v: &Var,
    value: ValueRef<'_>,
    store: &mut Store,
) -> Result<(), EvalFault>
    ensures value { Gives (map_ok (λ _. store.new) result) (with_variable (var_tree v.now) (value_of_ref value.entry) store.old) }
    ensures err { OnErr result (store.new ≡ store.old) }
{
    let indices = index_values(alloc, v, store)?;
    store.assign_at(alloc, &v.name, Index::List(&indices), value)?;
    Ok(())
}
