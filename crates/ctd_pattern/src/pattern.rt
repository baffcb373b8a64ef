//! Patterns, each built once from its literal.
ghost use Rattle.std.specs.Prelude.{◌≡◌, ◌↔◌, true, IfOk, IsUtf8};

use crate::matcher::Matcher;
use regex::Error;
use regex::bytes::Regex;
use std::alloc::{AllocError, Global};
use std::marker::Model;
use std::str::from_utf8;

/// Why no pattern was built from a literal.
#[derive(Clone, Copy, PartialEq, Eq, Debug)]
pub enum PatternFault {
    /// The literal is not UTF-8.
    NotText,
    /// The grammar of `regex` reads no pattern in the literal, or one that nests deeper than 250 levels.
    NotPattern,
    /// The literal is a pattern, and its tables would pass the size limit of `regex`.
    TooLarge,
    /// An allocation failed.
    Memory,
}

/// A built pattern, which contracts see as the bytes of its literal.
pub struct Pattern {
    regex: Regex,
}

// Written out, and not derived, as that of a matcher.
impl Drop for Pattern {
    fn drop(self) {
        let Pattern { regex: _regex } = self;
    }
}

impl Model for Pattern {
    ghost use Rattle.std.specs.Prelude.{◌≡◌, ℕ, List};
    ghost use Rattle.regex.specs.Bytes.{regex_source, regex_config, IsReadFromSource};
    ghost use Rattle.ctd_pattern.specs.Pattern.{bytes_config};

    ghost Value = { List ℕ };

    ghost view = { λ p. regex_source p.regex };

    ghost invariant = { λ p. (regex_config p.regex ≡ bytes_config) × IsReadFromSource p.regex };
}

impl Pattern {
    ghost use Rattle.ctd_pattern.specs.Pattern.{IsPattern, IsNoPattern};

    /// Builds the pattern that a literal is, with the default options of `regex` over bytes.
    pub fn read(alloc: Global, literal: &[u8]) -> Result<Pattern, PatternFault>
        ensures literal { IfOk result (λ pattern. pattern ≡ literal.now) }
        ensures is_pattern { IfOk result (λ _. IsPattern literal.now) }
        ensures not_text { (result ≡ Err PatternFault.NotText) ↔ ¬ (IsUtf8 literal.now) }
        ensures not_pattern { result ≡ Err PatternFault.NotPattern → IsNoPattern literal.now }
        ensures too_large { result ≡ Err PatternFault.TooLarge → IsPattern literal.now }
    {
        let Ok(text) = from_utf8(literal) else {
            return Err(PatternFault::NotText);
        };
        match Regex::new(alloc, text) {
            Ok(regex) => Ok(Pattern { regex }),
            Err(Error::Syntax(_)) => Err(PatternFault::NotPattern),
            Err(Error::CompiledTooBig) => Err(PatternFault::TooLarge),
            Err(Error::OutOfMemory) => Err(PatternFault::Memory),
            Err(Error::Internal) => unreachable!(),
        }
    }

    /// Whether it is the pattern of a literal.
    pub fn is_of(&self, literal: &[u8]) -> bool
        ensures same { result ≡ true → self.now ≡ literal.now }
        ensures all { self.now ≡ literal.now → result ≡ true }
    {
        self.regex.as_str().as_bytes() == literal
    }

    /// What searches for this pattern. It has tables of its own, which grow while it searches.
    pub fn matcher(&self, alloc: Global) -> Result<Matcher<'_>, AllocError>
        ensures literal { IfOk result (λ matcher. matcher ≡ self.now) }
    {
        Matcher::new(alloc, &self.regex)
    }
}
