//! The tokens of the checktestdata language, with the place of each, and the faults of programs.
#![tactic(auto)]

mod display;
mod fault;
mod laws;
mod lex;
mod limits;
mod literal;
mod name;
mod scan;
mod text;
mod token;

pub use fault::{LoadFault, LoadKind, TokenFault};
pub use laws::{tokens_are_longest, tokens_are_unique};
pub use lex::{Lexer, advance, tokens};
pub use limits::{NESTING_LIMIT, PROGRAM_LIMIT};
pub use name::{Name, NameKey};
pub use scan::token_at;
pub use text::{Bytes, Place};
pub use token::{Mark, Token, TokenKind};
