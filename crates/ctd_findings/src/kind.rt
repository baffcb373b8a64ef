//! The kinds of findings.

ghost use Rattle.std.specs.Prelude.{◌≡◌};
ghost use Rattle.ctd_findings.specs.calls.Kinds.{kind_named, kind_row, named_among};

/// How sure it is that a finding is a mistake.
#[derive(Clone, Copy, PartialEq, Eq)]
pub enum Rank {
    /// It is worth a look.
    Note,
    /// It is surely a mistake.
    Warning,
}

/// What a finding says. `text` has the words of each kind, and the man page of `ctd-lint` says what it means.
#[derive(Clone, Copy, PartialEq, Eq)]
pub enum Kind {
    UnknownPreset,
    Unreachable,
    AfterEof,
    NoValue,
    Unread,
    OwnReads,
    WrongSort,
    LiteralIndex,
    CounterSet,
    CounterBehind,
    RangeTrue,
    RangeFalse,
    RepeatsBounds,
    AlwaysTrue,
    AlwaysFalse,
    KeptArray,
    NoIndex,
    OtherWord,
    SameSides,
    SameNames,
    EmptyRange,
    EmptyString,
    EmptyPattern,
    LetterRange,
    HiddenAlternative,
    Caret,
    Dollar,
    NoBound,
    LineFeed,
}

impl Kind {
    /// All kinds, in the order in which the findings of a command stand.
    pub const ALL: [Kind; 29] = [
        Kind::UnknownPreset,
        Kind::Unreachable,
        Kind::AfterEof,
        Kind::NoValue,
        Kind::Unread,
        Kind::OwnReads,
        Kind::WrongSort,
        Kind::LiteralIndex,
        Kind::CounterSet,
        Kind::CounterBehind,
        Kind::RangeTrue,
        Kind::RangeFalse,
        Kind::RepeatsBounds,
        Kind::AlwaysTrue,
        Kind::AlwaysFalse,
        Kind::KeptArray,
        Kind::NoIndex,
        Kind::OtherWord,
        Kind::SameSides,
        Kind::SameNames,
        Kind::EmptyRange,
        Kind::EmptyString,
        Kind::EmptyPattern,
        Kind::LetterRange,
        Kind::HiddenAlternative,
        Kind::Caret,
        Kind::Dollar,
        Kind::NoBound,
        Kind::LineFeed,
    ];

    /// The name of a kind, as `no-value`.
    pub fn name(self) -> &'static str
        ensures { result.now ≡ (kind_row self).name }
    {
        match self {
            Kind::UnknownPreset => "unknown-preset",
            Kind::Unreachable => "unreachable",
            Kind::AfterEof => "after-eof",
            Kind::NoValue => "no-value",
            Kind::Unread => "unread",
            Kind::OwnReads => "own-reads",
            Kind::WrongSort => "wrong-type",
            Kind::LiteralIndex => "literal-index",
            Kind::CounterSet => "counter-set",
            Kind::CounterBehind => "counter-behind",
            Kind::RangeTrue => "range-true",
            Kind::RangeFalse => "range-false",
            Kind::RepeatsBounds => "repeats-bounds",
            Kind::AlwaysTrue => "always-true",
            Kind::AlwaysFalse => "always-false",
            Kind::KeptArray => "kept-array",
            Kind::NoIndex => "no-index",
            Kind::OtherWord => "other-word",
            Kind::SameSides => "same-sides",
            Kind::SameNames => "same-names",
            Kind::EmptyRange => "empty-range",
            Kind::EmptyString => "empty-string",
            Kind::EmptyPattern => "empty-pattern",
            Kind::LetterRange => "letter-range",
            Kind::HiddenAlternative => "hidden-alternative",
            Kind::Caret => "caret",
            Kind::Dollar => "dollar",
            Kind::NoBound => "no-bound",
            Kind::LineFeed => "line-feed",
        }
    }

    /// How sure it is that a finding of this kind is a mistake.
    pub fn rank(self) -> Rank
        ensures { result ≡ (kind_row self).rank }
    {
        match self {
            Kind::Unread
            | Kind::LiteralIndex
            | Kind::CounterSet
            | Kind::CounterBehind
            | Kind::RepeatsBounds
            | Kind::KeptArray
            | Kind::Caret
            | Kind::NoBound
            | Kind::LineFeed => Rank::Note,
            _ => Rank::Warning,
        }
    }

    /// What a finding of this kind says, without the name of a variable.
    pub fn text(self) -> &'static str
        ensures { result.now ≡ (kind_row self).text }
    {
        match self {
            Kind::UnknownPreset => "the program does not mention this name",
            Kind::Unreachable => "never reached: the loop before does not end",
            Kind::AfterEof => "nothing can come here: EOF before it asks for the end of the data",
            Kind::NoValue =>
                "nothing gives this name a value (give it a default by SET, or one by -D)",
            Kind::Unread => "nothing reads this variable",
            Kind::OwnReads => "only its own assignments read this variable",
            Kind::WrongSort =>
                "a number stands where a string is wanted, or a string where a number is wanted",
            Kind::LiteralIndex =>
                "nothing reads this counter, and the loop sets an element by a literal index",
            Kind::CounterSet => "a command in the loop sets its counter too",
            Kind::CounterBehind =>
                "the counter is read behind the loop, where it is the number of turns",
            Kind::RangeTrue => "the test is true for all values that its variables can have here",
            Kind::RangeFalse => "the test is false for all values that its variables can have here",
            Kind::RepeatsBounds => "the test asks for no more than the commands before it do",
            Kind::AlwaysTrue => "the test is true whatever the data are",
            Kind::AlwaysFalse => "the test is false whatever the data are",
            Kind::KeptArray =>
                "each turn of this loop also sees what earlier turns put into this array (see UNSET)",
            Kind::NoIndex => "UNIQUE compares nothing: no index is ever given to this variable",
            Kind::OtherWord => "no REGEX can give this variable this string",
            Kind::SameSides => "the two sides of a comparison are the same",
            Kind::SameNames => "UNIQUE has a name twice",
            Kind::EmptyRange => "the least integer is above the greatest",
            Kind::EmptyString => "the string is empty",
            Kind::EmptyPattern => "the pattern is empty",
            Kind::LetterRange => "A-z has six signs that are no letters, from [ to `",
            Kind::HiddenAlternative =>
                "an alternative is never taken: an earlier one is its beginning",
            Kind::Caret => "a match always begins here, so ^ has no effect",
            Kind::Dollar => "$ is the end of the window, not of a line",
            Kind::NoBound => "the pattern has no bound on its length",
            Kind::LineFeed => "the pattern matches a line feed too",
        }
    }

    /// The kind of this name, if there is one.
    pub fn named(name: &str) -> Option<Kind>
        ensures { result ≡ kind_named name.now }
    {
        named_among(&Kind::ALL, name)
    }
}

/// The first of some kinds that has this name.
fn named_among(kinds: &[Kind], name: &str) -> Option<Kind>
    ensures { result ≡ named_among kinds.now name.now }
{
    for kind in kinds {
        if kind.name() == name {
            return Some(*kind);
        }
    }
    None
}
