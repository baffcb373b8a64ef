//! What could stand where a program has a syntax error.

use ctd_syntax::parse;
use ctd_token::LoadKind;
use std::alloc::{AllocError, Global};

/// All tokens: marks that are told first, then a name, a number, a string and the end of the program, and then the others.
const TOKENS: [&str; 46] = [
    ",", ")", "]", "=", "[", "(", "&&", "||", "!", "a", "0", "\"\"", "", "!=", "%", "*", "+", "-",
    "/", "<", "<=", "==", ">", ">=", "ASSERT", "ELSE", "END", "EOF", "IF", "INARRAY", "INT",
    "ISEOF", "MATCH", "NEWLINE", "REGEX", "REP", "REPI", "SET", "SPACE", "STRING", "STRLEN",
    "UNIQUE", "UNSET", "WHILE", "WHILEI", "^",
];

/// How many of the tokens are told before groups of tokens.
const MARKS: usize = 9;

const COMMANDS: [&str; 14] = [
    "SPACE", "NEWLINE", "EOF", "INT", "STRING", "REGEX", "ASSERT", "SET", "UNSET", "REP", "REPI",
    "WHILE", "WHILEI", "IF",
];

const TESTS: [&str; 11] = [
    "!", "MATCH", "ISEOF", "UNIQUE", "INARRAY", "a", "0", "\"\"", "(", "-", "STRLEN",
];

const EXPRESSIONS: [&str; 6] = ["a", "0", "\"\"", "(", "-", "STRLEN"];

const COMPARISONS: [&str; 6] = ["<", ">", "<=", ">=", "==", "!="];

const OPERATORS: [&str; 6] = ["+", "-", "*", "/", "%", "^"];

/// The token of a number.
fn token_at(index: usize) -> &'static str {
    match TOKENS.get(index) {
        Some(token) => token,
        None => "",
    }
}

/// What a token is called.
fn token_name(token: &'static str) -> &'static str {
    match token {
        "a" => "a name",
        "0" => "a number",
        "\"\"" => "a string",
        "" => "the end of the program",
        _ => token,
    }
}

/// Whether a token is in a group.
fn is_in(token: &str, group: &[&str]) -> bool {
    for one in group {
        if one.as_bytes() == token.as_bytes() {
            return true;
        }
    }
    false
}

/// Whether a program could go on with a token behind the lines that are given. They are as they were then.
fn fits(alloc: Global, lines: &mut Vec<u8>, token: &str) -> Result<bool, AllocError> {
    let before = lines.len();
    lines.extend_from_slice(token.as_bytes())?;
    let parsed = parse(alloc, lines.as_slice());
    lines.truncate(before);
    let Err(fault) = parsed else {
        return Ok(true);
    };
    match (fault.kind, fault.place) {
        (LoadKind::Memory, _) => Err(AllocError),
        // The token stands at the start of a line.
        (LoadKind::Syntax, Some(place)) => Ok(place.column > 1),
        _ => Ok(false),
    }
}

/// Of each token, whether a program could go on with it behind a text with which one may begin.
fn all_fits(alloc: Global, text: &[u8]) -> Result<Vec<bool>, AllocError> {
    let mut lines = text.to_vec(alloc)?;
    lines.push(b'\n')?;
    let mut found = Vec::new(alloc);
    for token in &TOKENS {
        let fits = fits(alloc, &mut lines, token)?;
        found.push(fits)?;
    }
    Ok(found)
}

/// Whether all tokens of a group fit.
fn has_all(fitting: &[bool], group: &[&str]) -> bool {
    for (index, fits) in fitting.iter().enumerate() {
        if !*fits && is_in(token_at(index), group) {
            return false;
        }
    }
    true
}

/// Adds what could stand somewhere.
fn add_name(name: &str, names: &mut Vec<u8>) -> Result<(), AllocError> {
    names.extend_from_slice(b" or ")?;
    names.extend_from_slice(name.as_bytes())
}

/// Adds the name of a group, if all of its tokens fit; those that fit and are not told so are left.
fn take_group(
    alloc: Global,
    name: &str,
    group: &[&str],
    fitting: Vec<bool>,
    names: &mut Vec<u8>,
) -> Result<Vec<bool>, AllocError> {
    if !has_all(fitting.as_slice(), group) {
        return Ok(fitting);
    }
    let mut left = Vec::new(alloc);
    for (index, fits) in fitting.iter().enumerate() {
        left.push(*fits && !is_in(token_at(index), group))?;
    }
    add_name(name, names)?;
    Ok(left)
}

/// Adds the names of the tokens that fit: the marks, or the others.
fn add_tokens(fitting: &[bool], are_marks: bool, names: &mut Vec<u8>) -> Result<(), AllocError> {
    for (index, fits) in fitting.iter().enumerate() {
        if *fits && (index < MARKS) == are_marks {
            add_name(token_name(token_at(index)), names)?;
        }
    }
    Ok(())
}

/// What could stand behind a text with which a program may begin: marks, groups of tokens, and other tokens, each behind an `or`.
pub(crate) fn expected_behind(alloc: Global, text: &[u8]) -> Result<Vec<u8>, AllocError> {
    let mut groups = Vec::new(alloc);
    let fitting = all_fits(alloc, text)?;
    let fitting = take_group(alloc, "a command", &COMMANDS, fitting, &mut groups)?;
    let fitting = take_group(alloc, "a test", &TESTS, fitting, &mut groups)?;
    let fitting = take_group(alloc, "an expression", &EXPRESSIONS, fitting, &mut groups)?;
    let fitting = take_group(alloc, "a comparison", &COMPARISONS, fitting, &mut groups)?;
    let fitting = take_group(alloc, "an operator", &OPERATORS, fitting, &mut groups)?;
    let mut names = Vec::new(alloc);
    add_tokens(fitting.as_slice(), true, &mut names)?;
    names.extend_from_slice(groups.as_slice())?;
    add_tokens(fitting.as_slice(), false, &mut names)?;
    Ok(names)
}
