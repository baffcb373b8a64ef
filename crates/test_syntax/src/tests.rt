//! Small texts with their tokens, and texts of programs and of presets, with what they spell, worked out by hand from the
//! language. Which texts are refused, and where, is told by tables that the built checker is run on (`tests/tables/`).

mod answers;
mod grammar;
mod memory;
mod numbers;
mod presets;
mod shown;
mod tokens;
mod tree_text;
