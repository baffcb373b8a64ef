//! From the text of a program to its tree. It passes on the tokens, places and faults of `ctd_token`, and the trees and presets of
//! `ctd_program`.
#![tactic(auto)]

mod batches;
mod command;
mod condition;
mod expression;
mod front;
mod grammar;
mod keyword;
mod loop_head;
mod names;
mod nesting;
mod parser_token;
mod target;

pub use ctd_program::{
    Action, Assignment, Assignments, Choice, Command, Commands, Compare, Element, Expr, Exprs,
    IntArguments, Literals, Loop, LoopGuard, Names, Numeral, PatternLiteral, Preset, PresetFault,
    PresetValue, Presets, Program, RegexArguments, Test, Var,
};
pub use ctd_token::{
    Bytes, LoadFault, LoadKind, Mark, NESTING_LIMIT, Name, PROGRAM_LIMIT, Place, Token, TokenKind,
    tokens, tokens_are_longest, tokens_are_unique,
};
pub use grammar::parse;
pub use keyword::Keyword;
