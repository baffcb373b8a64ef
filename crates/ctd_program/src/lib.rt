//! What the checktestdata language speaks of: the trees of programs, and with what they are run: presets of variables, the mode for blanks, and limits.
#![tactic(auto)]

mod limits;
mod mode;
mod numeral;
mod preset;
mod preset_text;
mod tree;

pub use limits::Limits;
pub use mode::Mode;
pub use numeral::Numeral;
pub use preset::{Literals, Preset, PresetFault, PresetValue, Presets};
pub use tree::{
    Action, Assignment, Assignments, Choice, Command, Commands, Compare, Element, Expr, Exprs,
    IntArguments, Loop, LoopGuard, Names, PatternLiteral, Program, RegexArguments, Test, Var,
};
