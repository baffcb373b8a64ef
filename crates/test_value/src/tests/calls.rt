//! Calls of the store and of expressions, and the steps of all tables. A test is a table of steps: one function makes a store and lends it to
//! another, which takes it through the steps. So a `?` of that function drops no store, which is proved in a fraction of the
//! time.

use super::{same, store_of};
use ctd_source::{LookFault, Plain};
use ctd_syntax::{Action, Assignment, Command, Name, Test, Var, parse};
use ctd_value::{
    EntryRef, EvalFault, Key, Store, TestFault, Value, count_of, eval, fast_number, fast_test,
    holds, literal_number, locate, number_of, set_expression, set_number, set_text, test_at_byte,
    text_of,
};
use std::alloc::{AllocError, Global};
use std::process::Abort;
use std::test::Fail;

/// Whether a test holds, or its first fault.
type Answer = Result<bool, TestFault>;

pub(super) const READ: Answer = Err(TestFault::Look(LookFault::Read));

pub(super) const SHAPE: Answer = Err(TestFault::Eval(EvalFault::Shape));

pub(super) const WRONG_TYPE: Answer = Err(TestFault::Eval(EvalFault::WrongType));

pub(super) const UNDEFINED: Answer = Err(TestFault::Eval(EvalFault::Undefined));

pub(super) const DATA_TOO_LONG: Answer = Err(TestFault::Look(LookFault::DataTooLong));

/// What is done with each assignment of a SET, with an UNSET or with the test of an ASSERT, or asked of it, with the answer.
#[derive(Clone, Copy)]
pub(super) enum Step {
    /// The variable gets the value of the expression.
    SetExpression,
    /// The variable gets this number.
    SetNumber(i128),
    /// The variable gets the string of these bytes.
    SetText(&'static [u8]),
    /// A copy of the value is assigned at the key of the variable.
    Assign,
    /// The variable has the value of the expression.
    Has,
    /// The variable has no value.
    Lacks,
    /// The name of the variable has so many entries, and the variable with this value is one of them, once, if there are any.
    Entries(usize),
    /// The key of the variable has this name, and these numbers and strings as its indices.
    Key(&'static [u8], &'static [i128], &'static [&'static [u8]]),
    /// The number of the expression.
    Number(i128),
    /// The string of the expression.
    Text(&'static [u8]),
    /// How often a loop of the expression would run, or its fault.
    Count(Result<u64, EvalFault>),
    /// The number of the expression that is at hand.
    NumberAtHand(Option<i64>),
    /// The number that the expression is as a literal.
    Literal(Option<i64>),
    /// The names are unset.
    Unset,
    /// The answer to the test that is at hand.
    AtHand(Option<bool>),
    /// The answer to the test that a b tells as the next byte.
    InFrontOfB(Option<bool>),
    /// What the test says at these bytes, behind which a read may fail, under a limit.
    Holds(&'static [u8], bool, u8, Answer),
}

/// Texts of a command each, and the step that it is of.
pub(super) type Steps = &'static [(&'static str, Step)];

/// Assigns a copy of the value of an assignment at its key.
fn assign(alloc: Global, store: &mut Store, a: &Assignment) -> Result<(), EvalFault> {
    let value = eval(alloc, &a.value, store)?.copy(alloc)?;
    let key = locate(alloc, &a.target, store)?;
    Ok(store.assign(key, value)?)
}

/// Whether a key has a value.
fn has(store: &Store, key: &Key, value: &Value) -> bool {
    match store.get(key) {
        Some(found) => found == value,
        None => false,
    }
}

/// How many entries have this key and this value.
fn count_of_entry(entries: &[EntryRef], key: &Key, value: &Value) -> usize {
    let mut found = 0usize;
    for entry in entries {
        if entry.indices.as_slice() == key.indices() && entry.value == value {
            found = found.saturating_add(1);
        }
    }
    found
}

/// Whether a name has so many entries, of which just one has this key and this value, if there are any.
fn has_entries(
    alloc: Global,
    store: &Store,
    name: &Name,
    key: &Key,
    value: &Value,
    count: usize,
) -> Result<bool, AllocError> {
    let entries = store.entries(alloc, name)?;
    let found = count_of_entry(entries.as_slice(), key, value);
    Ok(entries.len() == count && found == count.min(1))
}

/// Whether the state of a store at a key of a name, and of a value there, is the one that is wanted.
fn is_state(
    alloc: Global,
    store: &Store,
    name: &Name,
    key: &Key,
    value: &Value,
    step: Step,
) -> Result<bool, AllocError> {
    match step {
        Step::Has => Ok(has(store, key, value)),
        Step::Lacks => Ok(store.get(key).is_none()),
        Step::Entries(count) => has_entries(alloc, store, name, key, value, count),
        Step::Key(name, numbers, texts) => Ok(*key == super::key(alloc, name, numbers, texts)?),
        _ => Ok(false),
    }
}

/// The same for the key of a variable and a value.
fn is_state_at(
    alloc: Global,
    store: &Store,
    v: &Var,
    value: &Value,
    step: Step,
) -> Result<bool, EvalFault> {
    let key = locate(alloc, v, store)?;
    Ok(is_state(alloc, store, &v.name, &key, value, step)?)
}

/// The same for the variable and the value of an assignment.
fn is_state_of(
    alloc: Global,
    store: &Store,
    a: &Assignment,
    step: Step,
) -> Result<bool, EvalFault> {
    let value = eval(alloc, &a.value, store)?;
    is_state_at(alloc, store, &a.target, &value, step)
}

/// Whether this is told of how often a loop of the value of an assignment would run.
fn is_count(
    alloc: Global,
    store: &Store,
    a: &Assignment,
    wanted: Result<u64, EvalFault>,
) -> Result<bool, EvalFault> {
    match count_of(alloc, &a.value, store) {
        Err(EvalFault::Memory) => Err(EvalFault::Memory),
        told => Ok(told == wanted),
    }
}

/// Takes a step with an assignment. Whether the answer is the one that is wanted, where it has one.
fn take_assignment_step(
    alloc: Global,
    store: &mut Store,
    a: &Assignment,
    step: Step,
) -> Result<bool, EvalFault> {
    match step {
        Step::SetExpression => set_expression(alloc, &a.target, &a.value, store)?,
        Step::SetNumber(n) => set_number(alloc, &a.target, n, store)?,
        Step::SetText(bytes) => set_text(alloc, &a.target, bytes, store)?,
        Step::Assign => assign(alloc, store, a)?,
        Step::Number(n) => return Ok(number_of(alloc, &a.value, store)? == n),
        Step::Text(bytes) => return Ok(text_of(alloc, &a.value, store)? == bytes),
        Step::Count(count) => return is_count(alloc, store, a, count),
        Step::NumberAtHand(n) => return Ok(fast_number(&a.value, store) == n),
        Step::Literal(n) => return Ok(literal_number(&a.value) == n),
        other => return is_state_of(alloc, store, a, other),
    }
    Ok(true)
}

/// Takes a step with a test. Whether the answer is the one that is wanted.
fn take_test_step(alloc: Global, store: &Store, t: &Test, step: Step) -> Result<bool, AllocError> {
    match step {
        Step::AtHand(truth) => Ok(fast_test(t, store) == truth),
        Step::InFrontOfB(truth) => Ok(test_at_byte(b'b', t) == truth),
        Step::Holds(bytes, broken, limit, answer) => {
            let mut data = Plain::new(bytes, broken, u64::from(limit));
            match holds(alloc, t, store, &mut data) {
                Err(TestFault::Eval(EvalFault::Memory)) => Err(AllocError),
                told => Ok(told == answer),
            }
        }
        _ => Ok(false),
    }
}

/// Takes a step with a command. Whether each answer is the one that is wanted.
fn take_step(
    alloc: Global,
    store: &mut Store,
    action: &Action,
    step: Step,
) -> Result<bool, EvalFault> {
    let mut is = true;
    match action {
        Action::Set(assignments) => {
            for a in assignments.as_slice() {
                is = take_assignment_step(alloc, store, a, step)? && is;
            }
        }
        Action::Unset(names) => {
            for name in names.as_slice() {
                store.unset(name);
            }
        }
        Action::Assert(t) => is = take_test_step(alloc, store, t, step)?,
        _ => is = false,
    }
    Ok(is)
}

/// The same with the last of some commands, behind the assignments of those before it.
fn take_last_step(
    alloc: Global,
    store: &mut Store,
    commands: &[Command],
    step: Step,
) -> Result<bool, EvalFault> {
    if let [before @ .., last] = commands {
        for command in before {
            take_step(alloc, store, &command.action, Step::SetExpression)?;
        }
        return take_step(alloc, store, &last.action, step);
    }
    Ok(false)
}

/// The same with the commands of a text.
pub(super) fn take_step_in(
    alloc: Global,
    store: &mut Store,
    text: &str,
    step: Step,
) -> Result<bool, Fail> {
    let program = parse(alloc, text.as_bytes())?;
    Ok(take_last_step(alloc, store, program.commands(), step)?)
}

/// Judges the steps of a store in turn, each behind some assignments in one text, so that names have one numbering.
pub(super) fn judge(
    rt: &impl Abort,
    alloc: Global,
    store: &mut Store,
    filling: &str,
    steps: Steps,
) -> Result<(), Fail> {
    for (turn, (command, step)) in steps.iter().enumerate() {
        let text = format!(in alloc; "{filling}{command}")?;
        let is = take_step_in(alloc, store, text.as_str(), *step)?;
        same(rt, &is, &true, &(turn, command));
    }
    Ok(())
}

/// Presets, assignments, and the steps of a store that begins with the presets, each behind the assignments.
pub(super) type Row = (&'static str, &'static str, Steps);

/// Judges the steps of the store of a row.
fn judge_row(rt: &impl Abort, alloc: Global, row: &Row) -> Result<(), Fail> {
    let (pinned, filling, steps) = *row;
    let mut store = store_of(alloc, pinned)?;
    judge(rt, alloc, &mut store, filling, steps)
}

/// Judges the steps of each row.
pub(super) fn judge_all(rt: &impl Abort, alloc: Global, rows: &[Row]) -> Result<(), Fail> {
    for row in rows {
        judge_row(rt, alloc, row)?;
    }
    Ok(())
}

const PRESETS: Steps = &[
    ("SET(n=4)", Step::Has),
    ("SET(s=\"a,b\")", Step::Has),
    ("SET(n[4]=0,m=0)", Step::Lacks),
];

const PRESET: Steps = &[
    ("SET(n=9,n[1]=6)", Step::Assign),
    ("SET(n=5,n[1]=6)", Step::Has),
    ("SET(n=5,n[1]=6)", Step::Entries(2)),
    ("UNSET(n)", Step::Unset),
    ("SET(n=5)", Step::Has),
    ("SET(n[1]=0)", Step::Lacks),
    ("SET(n=5)", Step::Entries(1)),
];

const PRESET_ELEMENTS: Steps = &[
    ("SET(a[1]=6,a[\"1\"]=7)", Step::Has),
    ("SET(a[1]=9,a[2]=9)", Step::Assign),
    ("SET(a[1]=6,a[2]=9)", Step::Has),
    ("SET(a[1]=6)", Step::Entries(3)),
    ("UNSET(a)", Step::Unset),
    ("SET(a[1]=6)", Step::Has),
    ("SET(a[2]=0,a=0,a[0]=0)", Step::Lacks),
    ("SET(a[1]=6)", Step::Entries(2)),
];

const SET: Steps = &[
    ("SET(a=b+2,a[0]=b+2,a[b-6,1]=b+2)", Step::SetNumber(4)),
    ("SET(a=4,a[0]=4,a[1,1]=4)", Step::Has),
    ("SET(a[0]=b+2)", Step::SetText(b"x")),
    ("SET(a[1]=b+2)", Step::SetExpression),
    ("SET(b=0)", Step::SetNumber(4)),
    ("SET(a=4,a[0]=\"x\",a[1]=9,b=7)", Step::Has),
];

const ONE_ENTRY: Steps = &[
    ("SET(a[1]=\"x\")", Step::Assign),
    ("SET(a[1]=\"x\")", Step::Entries(1)),
    ("UNSET(a)", Step::Unset),
    ("SET(a[1]=\"x\")", Step::Entries(0)),
    ("SET(a[1]=0)", Step::Lacks),
];

/// A key that is assigned again, or pinned and assigned, is among the entries once.
const EACH_KEY_ONCE: Steps = &[
    (
        "SET(a[3]=3,a[1]=1,a[2]=2,a[1]=1,a[3]=3,a[3]=3,a=9)",
        Step::Assign,
    ),
    ("SET(a=1,a[1]=1,a[2]=2,a[3]=3)", Step::Entries(4)),
];

/// What is unset goes at every index, and what has another name stays, also where that begins with this one.
const ONE_NAME_IS_UNSET: Steps = &[
    (
        "SET(a=1,ab=2,a[0]=1,ab[0]=2,a[1,2]=1,ab[1,2]=2,a[-1]=1,ab[-1]=2)",
        Step::Assign,
    ),
    ("UNSET(a)", Step::Unset),
    ("SET(a=0,a[0]=0,a[1,2]=0,a[-1]=0)", Step::Lacks),
    ("SET(ab=2,ab[0]=2,ab[1,2]=2,ab[-1]=2)", Step::Has),
];

const SET_OVER: Steps = &[
    ("SET(s=1)", Step::SetText(b"long")),
    ("SET(s=1)", Step::SetText(b"ab")),
    ("SET(s=\"ab\")", Step::Has),
    ("SET(s=1)", Step::SetText(b"longer than both")),
    ("SET(s=\"longer than both\")", Step::Has),
];

const OF_EXPRESSIONS: Steps = &[
    ("SET(n=7%-2,x=((s)))", Step::Assign),
    ("SET(n=1,x=\"a,b\")", Step::Has),
    ("SET(x=-7)", Step::Number(-7)),
    (
        "SET(x=9223372036854775807+1)",
        Step::Number(9_223_372_036_854_775_808),
    ),
    ("SET(x=\"a\\n\")", Step::Text(b"a\n")),
    ("SET(x=s)", Step::Text(b"a,b")),
    ("SET(x=3)", Step::Count(Ok(3))),
    ("SET(x=0)", Step::Count(Ok(0))),
    ("SET(x=18446744073709551615)", Step::Count(Ok(u64::MAX))),
    (
        "SET(x=18446744073709551616)",
        Step::Count(Err(EvalFault::Count)),
    ),
    ("SET(x=-1)", Step::Count(Err(EvalFault::Count))),
    ("SET(x=\"x\")", Step::Count(Err(EvalFault::WrongType))),
];

const KEYS: Steps = &[
    ("SET(a[1+1]=0)", Step::Key(b"a", &[2], &[])),
    ("SET(a=0)", Step::Key(b"a", &[], &[])),
    ("SET(a[-3,b,b]=0)", Step::Key(b"a", &[-3, 7, 7], &[])),
    ("SET(a[STRLEN(\"ab\")]=0)", Step::Key(b"a", &[2], &[])),
    ("SET(ab[1,\"k\"]=0)", Step::Key(b"ab", &[1], &[b"k"])),
];

const STORES: [Row; 10] = [
    ("s=\"a,b\",n=-3,n=4", "", PRESETS),
    ("n=5", "", PRESET),
    ("a[1]=5,a[\"1\"]=7,a[1]=6", "", PRESET_ELEMENTS),
    ("b=7", "", SET),
    ("", "", ONE_ENTRY),
    ("a=1", "", EACH_KEY_ONCE),
    ("", "", ONE_NAME_IS_UNSET),
    ("", "", SET_OVER),
    ("s=\"a,b\"", "", OF_EXPRESSIONS),
    ("b=7", "", KEYS),
];

#[test]
fn stores_answer_their_steps(rt: HostRuntime) -> Result<(), Fail> {
    judge_all(&rt, rt.alloc(), &STORES)
}
