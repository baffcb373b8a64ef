//! The words of variables: the texts that REGEX gives them, where its patterns are lists of texts.

use crate::pattern::{parts_of, tree_of};
use ctd_program::{Action, Command, RegexArguments};
use ctd_traps::CommandInBlock;
use regex_class::Class;
use regex_hir::Hir;
use std::alloc::{AllocError, Global};
use std::collections::{BTreeMap, BTreeSet};
use std::str::from_utf8;

/// How many words a variable has at most. One with more may have any text.
const MOST_WORDS: usize = 100;

/// How many members a class has, and 1 where it has none.
fn class_size(class: &Class) -> usize {
    let mut size: usize = 0;
    for range in class.ranges.iter() {
        let (low, high) = *range;
        let count = high.saturating_sub(low).saturating_add(1);
        size = size.saturating_add(count as usize);
    }
    size.max(1)
}

/// How many words a tree adds to those of the trees that stand in it: too many where it is no list of texts.
fn own_words(tree: &Hir) -> usize {
    match tree {
        Hir::Empty | Hir::Literal(_) => 1,
        Hir::Bytes(class) | Hir::Chars(class) => class_size(class),
        Hir::Capture { .. } | Hir::Alternation(_) => 0,
        Hir::Look(_) | Hir::Repetition { .. } | Hir::Concat(_) => usize::MAX,
    }
}

/// Whether a text is one character, and a class has it.
fn has_char(class: &Class, text: &[u8]) -> bool {
    let Ok(text) = from_utf8(text) else {
        return false;
    };
    let mut chars = text.chars();
    match (chars.next(), chars.next()) {
        (Some(c), None) => class.contains(u32::from(c)),
        _ => false,
    }
}

/// Whether a text is one of the words that a tree adds.
fn has_own_word(tree: &Hir, text: &[u8]) -> bool {
    match tree {
        Hir::Empty => text.is_empty(),
        Hir::Literal(bytes) => bytes.as_slice() == text,
        Hir::Bytes(class) => matches!(text, [byte] if class.contains(u32::from(*byte))),
        Hir::Chars(class) => has_char(class, text),
        _ => false,
    }
}

/// The words of a variable.
#[derive(Drop)]
struct WordList {
    /// Texts and classes of characters.
    trees: Vec<Hir>,
    /// How many words these are. Where it is above the limit, the variable may have any text.
    count: usize,
}

impl WordList {
    /// Whether the variable may have any text.
    fn has_any(&self) -> bool {
        self.count > MOST_WORDS
    }

    /// Takes in the words that a tree adds.
    fn add_own(&mut self, alloc: Global, tree: &Hir) -> Result<(), AllocError> {
        let count = own_words(tree);
        self.count = self.count.saturating_add(count);
        if count > 0 && !self.has_any() {
            self.trees.push(tree.copy(alloc)?)?;
        }
        Ok(())
    }

    /// Takes in what a pattern matches.
    fn add_pattern(&mut self, alloc: Global, pattern: &[u8]) -> Result<(), AllocError> {
        let Some(parsed) = tree_of(alloc, pattern)? else {
            self.count = usize::MAX;
            return Ok(());
        };
        let parts = parts_of(alloc, &parsed.hir)?;
        for part in &parts {
            self.add_own(alloc, part)?;
        }
        Ok(())
    }

    /// Whether the variable may have a text.
    fn may_have(&self, text: &[u8]) -> bool {
        self.has_any() || self.trees.iter().any(|tree| has_own_word(tree, text))
    }
}

/// The words of some names.
#[derive(Drop)]
pub(crate) struct Words<'p> {
    lists: BTreeMap<&'p [u8], WordList>,
}

/// What REGEX takes, if a command is one.
pub(crate) fn regex_of(command: &Command) -> Option<&RegexArguments> {
    match &command.action {
        Action::Regex(regex) => Some(regex),
        _ => None,
    }
}

/// The name to which REGEX gives its match, and its pattern.
fn match_given(command: &Command) -> Option<(&[u8], &[u8])> {
    let regex = regex_of(command)?;
    let target = regex.target.as_ref()?;
    Some((target.name.as_slice(), regex.literal.bytes.as_slice()))
}

impl<'p> Words<'p> {
    /// The words of no names.
    pub(crate) fn none(alloc: Global) -> Words<'p> {
        Words {
            lists: BTreeMap::new(alloc),
        }
    }

    /// Takes in a pattern that gives a name values.
    fn add(&mut self, alloc: Global, name: &'p [u8], pattern: &[u8]) -> Result<(), AllocError> {
        let mut list = match self.lists.remove(&name) {
            Some(list) => list,
            None => WordList {
                trees: Vec::new(alloc),
                count: 0,
            },
        };
        if !list.has_any() {
            list.add_pattern(alloc, pattern)?;
        }
        self.lists.insert(name, list)?;
        Ok(())
    }

    /// The words that some commands give some names, each pattern of a name once.
    pub(crate) fn of(
        alloc: Global,
        names: &BTreeSet<&'p [u8]>,
        commands: &[CommandInBlock<'p>],
    ) -> Result<Words<'p>, AllocError> {
        let mut words = Words::none(alloc);
        let mut seen = BTreeSet::new(alloc);
        for entry in commands {
            let Some((name, pattern)) = match_given(entry.command) else {
                continue;
            };
            if names.contains(&name) && seen.insert((name, pattern))? {
                words.add(alloc, name, pattern)?;
            }
        }
        Ok(words)
    }

    /// Whether a name has words, and a text is none of them.
    pub(crate) fn exclude(&self, name: &'p [u8], text: &[u8]) -> bool {
        self.lists
            .get(&name)
            .is_some_and(|list| !list.may_have(text))
    }
}
