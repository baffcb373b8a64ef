//! Which facts are so of one state, and of two.

ghost use Rattle.std.specs.Prelude.{◌≡◌, true, IfOk};
ghost use Rattle.ctd_element_changes.specs.calls.Joins.{ImpliesAll, IsPartOf};

use ctd_elements::{AbstractState, Fact, follows, follows_directly};
use ctd_range::Range;
use ctd_states::{AbstractValue, Lengths, PossibleValues};
use std::alloc::{AllocError, Global};

/// Whether all facts follow from what is known.
pub fn all_follow(state: AbstractState, facts: &[Fact]) -> bool
    ensures { result ≡ true → ImpliesAll state.entry facts.now }
{
    for fact in facts {
        if !follows(state, *fact) {
            return false;
        }
    }
    true
}

/// Those of some candidates that follow from what is known.
pub fn facts_that_follow(
    alloc: Global,
    state: AbstractState,
    candidates: &[Fact],
) -> Result<Vec<Fact>, AllocError>
    ensures part { IfOk result (λ after. IsPartOf after.items candidates.now) }
    ensures implied { IfOk result (λ after. ImpliesAll state.entry after.items) }
{
    let mut after = Vec::new(alloc);
    for fact in candidates {
        if follows(state, *fact) {
            after.push(*fact)?;
        }
    }
    Ok(after)
}

/// Those of some candidates that follow from what is known in each of two states: the facts of their join.
pub fn facts_of_both(
    alloc: Global,
    one: AbstractState,
    other: AbstractState,
    candidates: &[Fact],
) -> Result<Vec<Fact>, AllocError>
    ensures one { IfOk result (λ after. ImpliesAll one.entry after.items) }
    ensures other { IfOk result (λ after. ImpliesAll other.entry after.items) }
{
    let first = facts_that_follow(alloc, one, candidates)?;
    facts_that_follow(alloc, other, first.as_slice())
}

/// How many facts a state has at most, besides those that two numbers differ.
const MOST: usize = 72;

/// How many facts a state has at most that two numbers differ.
const MOST_UNEQUAL: usize = 16;

/// The value of a name that is some number, and whose elements may be anything.
const SOME_NUMBER: AbstractValue = AbstractValue {
    may_lack: false,
    alone: PossibleValues {
        text: None,
        number: Some(Range {
            low: i128::MIN,
            high: i128::MAX,
            rise: 0,
            fall: 0,
        }),
    },
    elements: PossibleValues {
        text: Some(Lengths {
            least: 0,
            most: u64::MAX,
        }),
        number: None,
    },
};

/// As many values of which nothing is told but that they are numbers.
fn some_numbers(alloc: Global, count: usize) -> Result<Vec<AbstractValue>, AllocError> {
    let mut all = Vec::new(alloc);
    for _ in 0..count {
        all.push(SOME_NUMBER)?;
    }
    Ok(all)
}

/// Whether a fact says that two numbers differ.
fn is_unequal(fact: Fact) -> bool {
    matches!(fact, Fact::Unequal(_, _))
}

/// Whether there is room for a fact beside others. Those that two numbers differ leave the room of the others as it is.
fn has_room(known: &[Fact], fact: Fact) -> bool {
    let unequal = is_unequal(fact);
    let most = if unequal { MOST_UNEQUAL } else { MOST };
    let alike = known
        .iter()
        .filter(|other| is_unequal(**other) == unequal)
        .count();
    alike < most
}

/// Whether a fact says something that none of the others does, and there is room for it: of two numbers, also what the values of names do not say. A block
/// is compared with others whatever these values are, since a counter has one number in its first turn, and others later. One that two others make up
/// is new: it stays in their place, since an element is looked for in one block.
fn is_new(state: AbstractState, numbers: &[AbstractValue], known: &[Fact], fact: Fact) -> bool {
    let entries = if is_order(fact) || is_unequal(fact) {
        state.entries
    } else {
        numbers
    };
    let others = AbstractState {
        names: state.names,
        entries,
        facts: known,
    };
    has_room(known, fact) && !follows_directly(others, fact)
}

/// Those of some facts that do not follow from others, nor from ones before them.
fn without_later(
    alloc: Global,
    state: AbstractState,
    others: &[Fact],
    facts: &[Fact],
) -> Result<Vec<Fact>, AllocError>
    ensures { IfOk result (λ after. IsPartOf after.items facts.now) }
{
    let numbers = some_numbers(alloc, state.entries.len())?;
    let mut known = others.to_vec(alloc)?;
    let mut kept = Vec::new(alloc);
    for fact in facts {
        let is_kept = is_new(state, numbers.as_slice(), known.as_slice(), *fact);
        if is_kept {
            known.push(*fact)?;
            kept.push(*fact)?;
        }
    }
    Ok(kept)
}

/// Whether a fact says how one number lies beside another.
fn is_order(fact: Fact) -> bool {
    matches!(fact, Fact::AtMost(_, _))
}

/// Adds those facts that are orders, or those that are none, from the last one to the first.
fn add_backwards(
    mut after: Vec<Fact>,
    facts: &[Fact],
    orders: bool,
) -> Result<Vec<Fact>, AllocError>
    ensures { IfOk result (λ all. IsPartOf after.items facts.now → IsPartOf all.items facts.now) }
{
    for i in 0..facts.len() {
        let fact = facts[facts.len() - 1 - i];
        let is_wanted = is_order(fact) == orders;
        if is_wanted {
            after.push(fact)?;
        }
    }
    Ok(after)
}

/// The facts, from the last one to the first: the orders, by which others follow, and then those others.
fn backwards(alloc: Global, facts: &[Fact]) -> Result<Vec<Fact>, AllocError>
    ensures { IfOk result (λ after. IsPartOf after.items facts.now) }
{
    let orders = add_backwards(Vec::new(alloc), facts, true)?;
    add_backwards(orders, facts, false)
}

/// Few facts that say what many do beside others: without those that follow from these or from one another, and without orders that follow from the
/// values of names. Of those that say the same the last one stays.
pub fn fewest(
    alloc: Global,
    state: AbstractState,
    others: &[Fact],
    facts: &[Fact],
) -> Result<Vec<Fact>, AllocError>
    ensures { IfOk result (λ after. IsPartOf after.items facts.now) }
{
    let reversed = backwards(alloc, facts)?;
    let few = without_later(alloc, state, others, reversed.as_slice())?;
    let again = backwards(alloc, few.as_slice())?;
    let fewer = without_later(alloc, state, others, again.as_slice())?;
    Ok(fewer)
}
