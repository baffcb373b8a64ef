//! The words of the language.

ghost use Rattle.std.specs.Prelude.{◌≡◌};
ghost use Rattle.ctd_syntax.specs.inner.Words.{block_word, plain_word, test_word};

/// A word that the grammar knows, or any other.
#[derive(Clone, Copy, PartialEq, Eq)]
pub enum Keyword {
    Space,
    Newline,
    Eof,
    Int,
    String,
    Regex,
    Assert,
    Set,
    Unset,
    Rep,
    RepI,
    While,
    WhileI,
    If,
    Else,
    End,
    Strlen,
    Match,
    IsEof,
    Unique,
    InArray,
    /// A word that no production holds.
    Unknown,
}

// A word with which a command without a block begins.
fn plain_word(word: &[u8]) -> Option<Keyword>
    ensures { result ≡ plain_word word.now }
{
    match word {
        b"SPACE" => Some(Keyword::Space),
        b"NEWLINE" => Some(Keyword::Newline),
        b"EOF" => Some(Keyword::Eof),
        b"INT" => Some(Keyword::Int),
        b"STRING" => Some(Keyword::String),
        b"REGEX" => Some(Keyword::Regex),
        b"ASSERT" => Some(Keyword::Assert),
        b"SET" => Some(Keyword::Set),
        b"UNSET" => Some(Keyword::Unset),
        _ => None,
    }
}

// A word with which a block begins or ends.
fn block_word(word: &[u8]) -> Option<Keyword>
    ensures { result ≡ block_word word.now }
{
    match word {
        b"REP" => Some(Keyword::Rep),
        b"REPI" => Some(Keyword::RepI),
        b"WHILE" => Some(Keyword::While),
        b"WHILEI" => Some(Keyword::WhileI),
        b"IF" => Some(Keyword::If),
        b"ELSE" => Some(Keyword::Else),
        b"END" => Some(Keyword::End),
        _ => None,
    }
}

// A word of tests and expressions.
fn test_word(word: &[u8]) -> Option<Keyword>
    ensures { result ≡ test_word word.now }
{
    match word {
        b"STRLEN" => Some(Keyword::Strlen),
        b"MATCH" => Some(Keyword::Match),
        b"ISEOF" => Some(Keyword::IsEof),
        b"UNIQUE" => Some(Keyword::Unique),
        b"INARRAY" => Some(Keyword::InArray),
        _ => None,
    }
}

impl Keyword {
    ghost use Rattle.ctd_syntax.specs.Lexeme.{keyword_of};

    /// The word that some bytes spell.
    #[tactic(auto, using(crate::proofs::Words::is_plain, crate::proofs::Words::is_block, crate::proofs::Words::is_other))]
    pub(crate) fn from_word(word: &[u8]) -> Keyword
        ensures { result ≡ keyword_of word.now }
    {
        if let Some(keyword) = plain_word(word) {
            return keyword;
        }
        if let Some(keyword) = block_word(word) {
            return keyword;
        }
        test_word(word).unwrap_or(Keyword::Unknown)
    }
}
