//! Matching a pattern at the start of a window.
ghost use Rattle.std.specs.Prelude.{◌≡◌, ◌≤◌, length, true, IfOk, IfSome};
ghost use Rattle.regex.specs.Bytes.{matcher_pattern};
ghost use Rattle.ctd_pattern.specs.Pattern.{length_of_first};

use regex::bytes::Regex;
use std::alloc::{AllocError, Global};
use std::marker::Model;

/// What searches for one pattern, which contracts see as the bytes of the pattern's literal.
pub struct Matcher<'p> {
    literal: &'p [u8],
    matcher: regex::bytes::Matcher<'p>,
}

// Written out, and not derived, so that the crates above prove nothing of how the tables of `regex` are dropped.
impl Drop for Matcher<'_> {
    fn drop(self) {
        let Matcher {
            literal: _,
            matcher: _matcher,
        } = self;
    }
}

impl<'p> Model for Matcher<'p> {
    ghost use Rattle.std.specs.Prelude.{ℕ, List};
    ghost use Rattle.regex.specs.Bytes.{matcher_pattern};
    ghost use Rattle.ctd_pattern.specs.calls.Pattern.{IsWrittenAs};

    ghost Value = { List ℕ };

    ghost view = { λ m. m.literal.now };

    ghost invariant = { λ m. IsWrittenAs m.literal.now (matcher_pattern m.matcher) };
}

impl<'p> Matcher<'p> {
    ghost use Rattle.regex.specs.Bytes.{regex_source, regex_config, IsReadFromSource};
    ghost use Rattle.ctd_pattern.specs.Pattern.{bytes_config, length_at_start};

    /// What searches for a regular expression that was read by the options of patterns.
    pub(crate) fn new(alloc: Global, regex: &'p Regex) -> Result<Matcher<'p>, AllocError>
        requires config { regex_config regex.now ≡ bytes_config }
        requires read { IsReadFromSource regex.now }
        ensures literal { IfOk result (λ matcher. matcher ≡ regex_source regex.now) }
    {
        let matcher = regex.matcher(alloc)?;
        Ok(Matcher {
            literal: regex.as_str().as_bytes(),
            matcher,
        })
    }

    /// Whether its pattern is that of a literal.
    #[inline]
    pub fn is_of(&self, literal: &[u8]) -> bool
        ensures same { result ≡ true → self.now ≡ literal.now }
        ensures all { self.now ≡ literal.now → result ≡ true }
    {
        self.literal == literal
    }

    /// How many bytes the first match on a window takes, where that match starts with the window.
    ///
    /// The window is the whole text for the pattern: `^` and `\b` see nothing before it, `$` nothing behind it.
    pub fn match_length(&mut self, window: &[u8]) -> Option<usize>
        ensures length { result ≡ length_at_start self.old window.now }
        ensures within { IfSome result (λ n. n ≤ length window.now) }
        ensures same { self.new ≡ self.old }
    {
        length_of_first(&mut self.matcher, window)
    }
}

/// How many bytes the first match of a regular expression takes, where it starts with the window.
fn length_of_first(matcher: &mut regex::bytes::Matcher<'_>, window: &[u8]) -> Option<usize>
    ensures length { result ≡ length_of_first (matcher_pattern matcher.old) window.now }
    ensures within { IfSome result (λ n. n ≤ length window.now) }
    ensures same { matcher_pattern matcher.new ≡ matcher_pattern matcher.old }
{
    match matcher.find(window) {
        Some(found) if found.start() == 0 => Some(found.end()),
        _ => None,
    }
}
