//! Which facts follow from others.

use super::{A, I, N, X, between, filled, judge, multiple, named, number};
use ctd_elements::{Block, Fact, Filling, Index, Keys, Side};

#[test]
fn a_block_of_two(rt: HostRuntime) {
    let three = filled(between(number(0), number(3)));
    let rest = filled(between(number(3), number(9)));
    let late = filled(between(number(4), number(9)));
    let five = filled(between(number(0), number(5)));
    judge(&rt, &[three, rest], five, true, "side by side");
    judge(&rt, &[three, late], five, false, "with a gap");
    judge(&rt, &[three], five, false, "too short");
}

#[test]
fn blocks_by_names(rt: HostRuntime) {
    let counted = filled(between(number(0), named(I, 0)));
    let more = filled(between(number(0), named(I, 1)));
    let all = filled(between(number(0), named(N, 0)));
    let below = Fact::AtMost(named(I, 1), named(N, 0));
    let above = Fact::AtMost(named(N, 0), named(I, 0));
    judge(&rt, &[all, below], more, true, "up to the counter");
    judge(&rt, &[all], more, false, "nothing of the counter");
    judge(&rt, &[counted, above], all, true, "up to the count");
    judge(&rt, &[counted], more, false, "one too many");
}

#[test]
fn empty_blocks(rt: HostRuntime) {
    let none = filled(between(named(I, 1), named(I, 1)));
    let unknown = filled(between(number(0), named(X, 0)));
    let one = filled(between(named(I, 0), named(I, 1)));
    judge(&rt, &[], none, true, "no index");
    judge(&rt, &[], unknown, true, "no number");
    judge(&rt, &[], one, false, "one index");
}

#[test]
fn multiples(rt: HostRuntime) {
    let least = Fact::AtMost(number(2), multiple(2, N, 0));
    let most = Fact::AtMost(multiple(3, I, 3), number(3000));
    let wrong = Fact::AtMost(multiple(3, I, 3), number(2999));
    judge(&rt, &[], least, true, "twice the count");
    judge(&rt, &[], most, true, "three times the counter");
    judge(&rt, &[], wrong, false, "too little");
}

#[test]
fn numbers_that_differ(rt: HostRuntime) {
    let differ = Fact::Unequal(named(I, 0), named(N, 0));
    let rows = [
        (named(I, 0), named(N, 0), true, "as it stands"),
        (named(N, 0), named(I, 0), true, "exchanged"),
        (named(I, 2), named(N, 2), true, "both moved"),
        (named(N, -1), named(I, -1), true, "exchanged and moved"),
        (named(I, 1), named(N, 0), false, "one moved"),
        (named(I, 0), number(0), false, "another pair"),
        (multiple(2, I, 0), multiple(2, N, 0), false, "multiples"),
    ];
    for (a, b, wanted, cell) in rows {
        judge(&rt, &[differ], Fact::Unequal(a, b), wanted, cell);
    }
    let less = Fact::AtMost(named(I, 1), named(N, 0));
    let at_most = Fact::AtMost(named(I, 0), named(N, 0));
    judge(&rt, &[less], differ, true, "less");
    judge(&rt, &[at_most], differ, false, "at most");
    let above = Fact::Unequal(named(I, 0), number(1000));
    let within = Fact::Unequal(number(999), named(I, 0));
    let unknown = Fact::Unequal(named(X, 0), named(X, 0));
    judge(&rt, &[], above, true, "above the range");
    judge(&rt, &[], within, false, "in the range");
    judge(&rt, &[], unknown, true, "no number");
}

#[test]
fn greatest_values(rt: HostRuntime) {
    let filling = Filling {
        array: A,
        block: Block {
            first: between(number(0), number(3)),
            second: None,
        },
        most: Some(named(I, 0)),
    };
    let looser = Filling {
        most: Some(named(N, 0)),
        ..filling
    };
    let anyway = Filling {
        most: Some(number(5000)),
        ..filling
    };
    let below = Fact::AtMost(named(I, 0), named(N, 0));
    let facts = [Fact::Filled(filling), below];
    judge(&rt, &facts, Fact::Filled(looser), true, "a greater one");
    judge(
        &rt,
        &facts,
        Fact::Filled(anyway),
        true,
        "that of all elements",
    );
    let other = [Fact::Filled(looser), below];
    judge(&rt, &other, Fact::Filled(filling), false, "a smaller one");
}

#[test]
fn rows_of_a_grid(rt: HostRuntime) {
    let whole = between(number(0), named(N, 0));
    let row = |first: Side| {
        Fact::Filled(Filling {
            array: A,
            block: Block {
                first,
                second: Some(whole),
            },
            most: None,
        })
    };
    let before = row(between(number(0), named(I, 0)));
    let own = row(Side::At(Index::Number(named(I, 0))));
    let together = row(between(number(0), named(I, 1)));
    judge(&rt, &[before, own], together, true, "a row more");
    judge(&rt, &[before], together, false, "no row");
}

#[test]
fn keys(rt: HostRuntime) {
    let block = Block {
        first: Side::At(Index::Number(named(I, 0))),
        second: None,
    };
    let all = Keys {
        array: A,
        other: N,
        except: None,
    };
    let some = Keys {
        except: Some(block),
        ..all
    };
    let empty = Keys {
        array: X,
        other: A,
        except: None,
    };
    judge(
        &rt,
        &[Fact::KeysWithin(all)],
        Fact::KeysWithin(some),
        true,
        "all but one",
    );
    judge(
        &rt,
        &[Fact::KeysWithin(some)],
        Fact::KeysWithin(all),
        false,
        "one is missing",
    );
    judge(
        &rt,
        &[Fact::KeysWithin(all)],
        Fact::ValuesAreKeys(all),
        false,
        "another kind",
    );
    judge(
        &rt,
        &[],
        Fact::ValuesAreKeys(empty),
        true,
        "an array with no elements",
    );
}
