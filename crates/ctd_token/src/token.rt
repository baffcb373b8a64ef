//! The tokens of a program (docs/LANGUAGE.md, tokens).

use crate::text::{Bytes, Place};

/// The brackets, operators and other marks.
#[derive(Clone, Copy, Debug, PartialEq, Eq)]
pub enum Mark {
    /// `(`
    Open,
    /// `)`
    Close,
    /// `[`
    OpenIndex,
    /// `]`
    CloseIndex,
    /// `,`
    Comma,
    /// `=`
    Assign,
    /// `+`
    Plus,
    /// `-`
    Minus,
    /// `*`
    Times,
    /// `/`
    Divide,
    /// `%`
    Percent,
    /// `^`
    Caret,
    /// `!`
    Bang,
    /// `<`
    Less,
    /// `>`
    Greater,
    /// `<=`
    AtMost,
    /// `>=`
    AtLeast,
    /// `==`
    Equal,
    /// `!=`
    Unequal,
    /// `&&`
    AndAnd,
    /// `||`
    OrOr,
}

/// What a token is.
#[derive(Drop)]
pub enum TokenKind {
    /// A row of letters `A` to `Z`; its bytes are those of the token's span.
    Word,
    /// A letter `a` to `z` with such letters and digits behind it; its bytes are those of the span.
    Name,
    /// A whole number, from 0 to 2^127 - 1.
    Numeral(i128),
    /// A string literal, as the bytes that it stands for.
    Text(Bytes),
    Mark(Mark),
}

/// A token with its span, the bytes of the text from offset `first` up to but not including offset
/// `after`, and with the place of its first byte.
#[derive(Drop)]
pub struct Token {
    pub kind: TokenKind,
    pub first: u32,
    pub after: u32,
    pub place: Place,
}
