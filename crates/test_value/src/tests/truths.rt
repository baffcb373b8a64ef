//! What tests of the language say, each by a table of steps.

use super::calls::{
    DATA_TOO_LONG, READ, Row, SHAPE, Step, Steps, UNDEFINED, WRONG_TYPE, judge_all,
};
use std::test::Fail;

/// Two numbers, a string, a row that rises, one that does not, one with a string in it, a number whose name is long, two numbers
/// at two indices, and a string there.
const FILLING: &str =
    "SET(n=3,k=0,s=\"x\",a[0]=1,a[1]=2,b[0]=2,b[1]=2,c[0]=\"2\",c[1]=1,longnames=4,g[1,2]=5,g[2,1]=6,w[1,0]=\"#\")";

/// What of them is at hand: answers that take no memory, no look at the data and no number of more than 64 bits.
const AT_HAND: Steps = &[
    ("ASSERT(n==3)", Step::AtHand(Some(true))),
    ("ASSERT(longnames!=4)", Step::AtHand(Some(false))),
    ("ASSERT(a[n-2]>a[0]&&!(n<0))", Step::AtHand(Some(true))),
    ("ASSERT(a[k+1]==2)", Step::AtHand(Some(true))),
    ("ASSERT(a[k-1]==2)", Step::AtHand(None)),
    ("ASSERT(g[1,n-1]==5)", Step::AtHand(Some(true))),
    ("ASSERT(g[k+1,n-1]==5)", Step::AtHand(Some(true))),
    ("ASSERT(g[2,1]<g[1,2])", Step::AtHand(Some(false))),
    ("ASSERT(g[1,1]==5)", Step::AtHand(None)),
    ("ASSERT(1==2||a[1]<=1)", Step::AtHand(Some(false))),
    ("ASSERT(s==\"x\")", Step::AtHand(Some(true))),
    ("ASSERT(s!=\"x\")", Step::AtHand(Some(false))),
    ("ASSERT(\"x\"!=\"y\")", Step::AtHand(None)),
    ("ASSERT(\"\"<s)", Step::AtHand(None)),
    ("ASSERT(s<=\"wz\")", Step::AtHand(Some(false))),
    ("ASSERT(c[k]==\"2\")", Step::AtHand(Some(true))),
    ("ASSERT(w[1,k]!=\"#\")", Step::AtHand(Some(false))),
    ("ASSERT(w[k,1]==\"#\")", Step::AtHand(None)),
    ("ASSERT(c[1]==\"2\")", Step::AtHand(None)),
    ("ASSERT(UNIQUE(a))", Step::AtHand(Some(true))),
    ("ASSERT(UNIQUE(b))", Step::AtHand(None)),
    ("ASSERT(UNIQUE(a,b))", Step::AtHand(None)),
    ("ASSERT(INARRAY(2,a))", Step::AtHand(Some(true))),
    (
        "ASSERT(INARRAY(3,a)||INARRAY(2,c))",
        Step::AtHand(Some(false)),
    ),
    ("ASSERT(INARRAY(1,c))", Step::AtHand(Some(true))),
    ("ASSERT(INARRAY(\"2\",c))", Step::AtHand(None)),
    ("ASSERT(n==3&&!INARRAY(3,a))", Step::AtHand(Some(true))),
    ("ASSERT(n==4&&INARRAY(2,a))", Step::AtHand(Some(false))),
    ("ASSERT(n==s)", Step::AtHand(None)),
    ("ASSERT(none==1)", Step::AtHand(None)),
    ("ASSERT(9223372036854775808>0)", Step::AtHand(None)),
    ("ASSERT(MATCH(\"a\"))", Step::AtHand(None)),
    ("ASSERT(!ISEOF)", Step::AtHand(None)),
    ("ASSERT(1==1||ISEOF)", Step::AtHand(Some(true))),
    ("SET(x=7)", Step::NumberAtHand(Some(7))),
    ("SET(x=-1000000)", Step::NumberAtHand(Some(-1_000_000))),
    (
        "SET(x=9223372036854775807)",
        Step::NumberAtHand(Some(9_223_372_036_854_775_807)),
    ),
    ("SET(x=9223372036854775808)", Step::NumberAtHand(None)),
    ("SET(x=-9223372036854775808)", Step::NumberAtHand(None)),
    ("SET(x=9223372036854775807+1)", Step::NumberAtHand(None)),
    (
        "SET(x=-9223372036854775807-1)",
        Step::NumberAtHand(Some(-9_223_372_036_854_775_808)),
    ),
    ("SET(x=-9223372036854775807-2)", Step::NumberAtHand(None)),
    ("SET(x=n*n-2)", Step::NumberAtHand(Some(7))),
    ("SET(x=\"7\")", Step::NumberAtHand(None)),
    ("SET(x=n/0)", Step::NumberAtHand(None)),
    ("SET(x=7)", Step::Literal(Some(7))),
    ("SET(x=-7)", Step::Literal(Some(-7))),
    (
        "SET(x=-9223372036854775807)",
        Step::Literal(Some(-9_223_372_036_854_775_807)),
    ),
    ("SET(x=9223372036854775808)", Step::Literal(None)),
    ("SET(x=n)", Step::Literal(None)),
    ("SET(x=3+4)", Step::Literal(None)),
    ("SET(x=\"7\")", Step::Literal(None)),
];

/// What tests of arrays say where each look would fail.
const OF_ARRAYS: Steps = &[
    ("ASSERT(UNIQUE(a))", Step::Holds(b"", true, 10, Ok(true))),
    ("ASSERT(UNIQUE(b))", Step::Holds(b"", true, 10, Ok(false))),
    ("ASSERT(UNIQUE(a,b))", Step::Holds(b"", true, 10, Ok(true))),
    ("ASSERT(UNIQUE(a,g))", Step::Holds(b"", true, 10, SHAPE)),
    (
        "ASSERT(n==3&&UNIQUE(a))",
        Step::Holds(b"", true, 10, Ok(true)),
    ),
    ("ASSERT(INARRAY(2,a))", Step::Holds(b"", true, 10, Ok(true))),
    (
        "ASSERT(INARRAY(3,a)||INARRAY(2,c))",
        Step::Holds(b"", true, 10, Ok(false)),
    ),
    ("ASSERT(INARRAY(1,c))", Step::Holds(b"", true, 10, Ok(true))),
    (
        "ASSERT(INARRAY(\"2\",c))",
        Step::Holds(b"", true, 10, Ok(true)),
    ),
    (
        "ASSERT(INARRAY(none,a))",
        Step::Holds(b"", true, 10, UNDEFINED),
    ),
];

/// Tests in front of a b, and the answer to each that this byte tells.
const IN_FRONT_OF_B: Steps = &[
    ("ASSERT(MATCH(\"abc\"))", Step::InFrontOfB(Some(true))),
    ("ASSERT(MATCH(\"ac\"))", Step::InFrontOfB(Some(false))),
    ("ASSERT(MATCH(\"\"))", Step::InFrontOfB(Some(false))),
    ("ASSERT(!MATCH(\"b\"))", Step::InFrontOfB(Some(false))),
    ("ASSERT(!MATCH(\"a\"))", Step::InFrontOfB(Some(true))),
    ("ASSERT(ISEOF)", Step::InFrontOfB(Some(false))),
    ("ASSERT(!ISEOF)", Step::InFrontOfB(Some(true))),
    ("ASSERT(!!ISEOF)", Step::InFrontOfB(None)),
    ("ASSERT(MATCH(s))", Step::InFrontOfB(None)),
    ("ASSERT(MATCH(\"b\")&&ISEOF)", Step::InFrontOfB(None)),
    ("ASSERT(1==1)", Step::InFrontOfB(None)),
];

/// What tests say at bytes, at the end of data and where a read fails.
const LOOKS: Steps = &[
    (
        "ASSERT(MATCH(\"ab\"))",
        Step::Holds(b"b", false, 10, Ok(true)),
    ),
    (
        "ASSERT(MATCH(\"ab\"))",
        Step::Holds(b"ab", true, 10, Ok(true)),
    ),
    (
        "ASSERT(MATCH(\"ab\"))",
        Step::Holds(b"c", false, 10, Ok(false)),
    ),
    (
        "ASSERT(MATCH(\"ab\"))",
        Step::Holds(b"", false, 10, Ok(false)),
    ),
    ("ASSERT(MATCH(\"ab\"))", Step::Holds(b"", true, 10, READ)),
    (
        "ASSERT(MATCH(\"ab\"))",
        Step::Holds(b"b", false, 0, DATA_TOO_LONG),
    ),
    (
        "ASSERT(MATCH(\"\"))",
        Step::Holds(b"a", false, 10, Ok(false)),
    ),
    (
        "ASSERT(MATCH(\"\\377\"))",
        Step::Holds(b"\xff", false, 10, Ok(true)),
    ),
    ("ASSERT(ISEOF)", Step::Holds(b"", false, 10, Ok(true))),
    ("ASSERT(ISEOF)", Step::Holds(b"a", false, 10, Ok(false))),
    ("ASSERT(ISEOF)", Step::Holds(b"", true, 10, READ)),
    ("ASSERT(ISEOF)", Step::Holds(b"a", true, 0, DATA_TOO_LONG)),
    // A look moves nothing, so a second one sees the same byte.
    (
        "ASSERT(MATCH(\"a\") && MATCH(\"a\") && !ISEOF)",
        Step::Holds(b"ab", false, 10, Ok(true)),
    ),
    (
        "ASSERT(MATCH(\"a\") || ISEOF)",
        Step::Holds(b"", false, 10, Ok(true)),
    ),
];

/// Tests that come to no look, or to one, where each look is told since a read fails.
const LOOKS_THAT_FAIL: Steps = &[
    (
        "ASSERT(!(1==2 && ISEOF))",
        Step::Holds(b"", true, 10, Ok(true)),
    ),
    (
        "ASSERT(1==1 || ISEOF)",
        Step::Holds(b"", true, 10, Ok(true)),
    ),
    (
        "ASSERT(1==2 && ISEOF || 1==1)",
        Step::Holds(b"", true, 10, Ok(true)),
    ),
    (
        "ASSERT(1==1 || 1==1 && ISEOF)",
        Step::Holds(b"", true, 10, Ok(true)),
    ),
    (
        "ASSERT(!(!(1==1) && ISEOF))",
        Step::Holds(b"", true, 10, Ok(true)),
    ),
    ("ASSERT(ISEOF || 1==1)", Step::Holds(b"", true, 10, READ)),
    ("ASSERT(1==1 && ISEOF)", Step::Holds(b"", true, 10, READ)),
    // The string of MATCH comes before the look.
    ("ASSERT(MATCH(1))", Step::Holds(b"", true, 10, WRONG_TYPE)),
    (
        "ASSERT(MATCH(-\"a\"))",
        Step::Holds(b"", true, 10, WRONG_TYPE),
    ),
    ("ASSERT(MATCH(x))", Step::Holds(b"", true, 10, UNDEFINED)),
    ("ASSERT(MATCH(\"\"))", Step::Holds(b"", true, 10, READ)),
];

const OF_TESTS: [Row; 5] = [
    ("", FILLING, AT_HAND),
    ("", FILLING, OF_ARRAYS),
    ("", "", IN_FRONT_OF_B),
    ("", "", LOOKS),
    ("", "", LOOKS_THAT_FAIL),
];

#[test]
fn tests_answer_their_steps(rt: HostRuntime) -> Result<(), Fail> {
    judge_all(&rt, rt.alloc(), &OF_TESTS)
}
