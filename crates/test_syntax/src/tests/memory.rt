//! The calls on small texts, each of which may run out of memory. `tests/allocations.py` at the top of the repository lets each
//! allocation fail in turn.

use ctd_syntax::{PresetFault, Presets, parse};
use ctd_token::{LoadFault, tokens};
use std::alloc::Global;
use std::test::Fail;

/// How many tokens a text has.
fn count_tokens(alloc: Global, text: &[u8]) -> Result<usize, LoadFault> {
    Ok(tokens(alloc, text)?.len())
}

/// How many commands a program has, those in its blocks left out.
fn count_commands(alloc: Global, text: &[u8]) -> Result<usize, LoadFault> {
    Ok(parse(alloc, text)?.commands().len())
}

/// How many presets a text spells.
fn count_presets(alloc: Global, text: &str) -> Result<usize, PresetFault> {
    Ok(Presets::read(alloc, text)?.pins().len())
}

const PROGRAM: &str = "INT(1,n+1,a[i]) STRING(\"x\") REGEX(\"y\",word)
ASSERT(!(1<2) && MATCH(\"z\") || UNIQUE(a,b)) SET(x=-2^3) UNSET(x,longname)
REPI(i,3,SPACE) NEWLINE END WHILE(ISEOF) REP(1) END END IF(INARRAY(1,a)) ELSE EOF END";

/// Each ends in `Memory` or in its own answer.
#[test]
fn small_texts_end_in_their_answers(rt: HostRuntime) -> Result<(), Fail> {
    let counts = [
        count_tokens(rt.alloc(), b"INT(a1) \"x\"")?,
        count_commands(rt.alloc(), PROGRAM.as_bytes())?,
        count_presets(rt.alloc(), "s=\"a,b\",longname=-3,n=4")?,
    ];
    assert_eq!(rt; counts, [5, 9, 3]);
    Ok(())
}
