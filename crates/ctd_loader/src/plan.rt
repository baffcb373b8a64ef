//! A program that was read, as it is run.
ghost use Rattle.std.specs.Prelude.{◌≡◌, ◌≢◌, ◌≤◌, ◌⊎◌, true, None, Some, length, All, OnOk, IfOk, IfErr, IsErrAnd};
ghost use Rattle.ctd_source.specs.declared.source.Seen.TheVariants.{Going};
ghost use Rattle.ctd_token.specs.declared.limits.TheConstants.{NESTING_LIMIT, PROGRAM_LIMIT};
ghost use Rattle.ctd_program.specs.calls.Blocks.{list_blocks};
ghost use Rattle.ctd_program.specs.calls.View.{command_trees};
ghost use Rattle.ctd_syntax.specs.inner.PatternLiterals.{literals};
ghost use Rattle.ctd_pattern.specs.Pattern.{IsPattern};
ghost use Rattle.ctd_loader.specs.inner.Literals.{literals_at, IsBadLiteral};
ghost use Rattle.ctd_loader.specs.Loading.{ArePatterns, IsBadPattern};
ghost use Rattle.ctd_source.specs.SourceReads.{GaveBytes};

use crate::literals::literals_of;
use crate::text::{ReceivedText, receive};
use ctd_pattern::{Matcher, Pattern, PatternFault};
use ctd_source::Source;
use ctd_syntax::{
    Command, LoadFault, LoadKind, PROGRAM_LIMIT, PatternLiteral, Program, RegexArguments, parse,
};
use std::alloc::{AllocError, Global};
use std::marker::Model;

/// A program that was read, ready for any number of checks, which contracts see as the list of its commands.
pub struct Plan {
    program: Program,
    /// The patterns of its literals, in the order of the text and each once, so that one stands at the number of each of its commands.
    patterns: Vec<Pattern>,
    ghost shallow: { list_blocks (command_trees program) ≤ NESTING_LIMIT },
}

impl Drop for Plan {
    fn drop(self) {
        let Plan {
            program: _,
            patterns: _,
        } = self;
    }
}

impl Model for Plan {
    ghost use Rattle.std.specs.Prelude.{List};
    ghost use Rattle.std.specs.Coded.{codes};
    ghost use Rattle.ctd_program.specs.declared.tree.Command.{Command};
    ghost use Rattle.ctd_program.specs.contracts.tree.Command as c;

    ghost Value = { List Command };

    ghost coded = { Prim.hlevel (codes, c.the_row.coded) };

    ghost view = { λ p. p.program };
}

/// The fault of a literal of which no pattern was built.
fn pattern_fault(literal: &PatternLiteral, fault: PatternFault) -> LoadFault
    ensures bad { fault ≢ PatternFault.Memory → result ≡ record { kind = LoadKind.BadPattern; place = Some literal.now.place } }
    ensures memory { fault ≡ PatternFault.Memory → result ≡ record { kind = LoadKind.Memory; place = None } }
{
    match fault {
        PatternFault::NotText | PatternFault::NotPattern | PatternFault::TooLarge => LoadFault {
            kind: LoadKind::BadPattern,
            place: Some(literal.place),
        },
        PatternFault::Memory => LoadFault {
            kind: LoadKind::Memory,
            place: None,
        },
    }
}

/// Builds the pattern of a literal.
fn build(alloc: Global, literal: &PatternLiteral) -> Result<Pattern, LoadFault>
    ensures literal { IfOk result (λ pattern. pattern ≡ literal.now.bytes) }
    ensures is_pattern { IfOk result IsPattern }
    ensures bad { IfErr result (λ fault. fault.kind ≢ LoadKind.Memory → IsBadLiteral literal.now fault) }
    ensures memory { IfErr result (λ fault. fault.kind ≡ LoadKind.Memory → fault.place ≡ None) }
{
    match Pattern::read(alloc, literal.bytes.as_slice()) {
        Ok(pattern) => Ok(pattern),
        Err(fault) => Err(pattern_fault(literal, fault)),
    }
}

/// Whether the pattern of a literal is built: it is the one at its number.
fn is_built(arguments: &RegexArguments, patterns: &[Pattern]) -> bool
    ensures { result ≡ true → All IsPattern patterns.now → IsPattern arguments.now.literal.bytes }
{
    match patterns.get(arguments.number as usize) {
        Some(pattern) => pattern.is_of(arguments.literal.bytes.as_slice()),
        None => false,
    }
}

/// Builds the pattern of a literal and adds it to some, unless it is built.
fn add_pattern(
    alloc: Global,
    arguments: &RegexArguments,
    patterns: &mut Vec<Pattern>,
) -> Result<(), LoadFault>
    ensures is_pattern { OnOk result (All IsPattern patterns.old.items → IsPattern arguments.now.literal.bytes) }
    ensures patterns { OnOk result (All IsPattern patterns.old.items → All IsPattern patterns.new.items) }
    ensures bad { IfErr result (λ fault. fault.kind ≢ LoadKind.Memory → IsBadLiteral arguments.now.literal fault) }
    ensures memory { IfErr result (λ fault. fault.kind ≡ LoadKind.Memory → fault.place ≡ None) }
{
    if is_built(arguments, patterns.as_slice()) {
        return Ok(());
    }
    let pattern = build(alloc, &arguments.literal)?;
    patterns.push(pattern)?;
    Ok(())
}

/// Builds the patterns of literals, in order, each of them once.
fn build_all(alloc: Global, literals: &[&RegexArguments]) -> Result<Vec<Pattern>, LoadFault>
    ensures are_patterns { IfOk result (λ _. ArePatterns (literals_at literals.now)) }
    ensures bad { IfErr result (λ fault. fault.kind ≢ LoadKind.Memory → IsBadPattern (literals_at literals.now) fault) }
    ensures memory { IfErr result (λ fault. fault.kind ≡ LoadKind.Memory → fault.place ≡ None) }
{
    let mut patterns = Vec::new(alloc);
    for arguments in literals {
        add_pattern(alloc, arguments, &mut patterns)?;
    }
    Ok(patterns)
}

/// Builds the patterns of commands, in the order of the text.
fn patterns_in(alloc: Global, commands: &[Command]) -> Result<Vec<Pattern>, LoadFault>
    ensures are_patterns { IfOk result (λ _. ArePatterns (literals (command_trees commands.now))) }
    ensures bad { IfErr result (λ fault. fault.kind ≢ LoadKind.Memory → IsBadPattern (literals (command_trees commands.now)) fault) }
    ensures memory { IfErr result (λ fault. fault.kind ≡ LoadKind.Memory → fault.place ≡ None) }
{
    let found = literals_of(alloc, commands)?;
    build_all(alloc, found.as_slice())
}

/// A matcher for each pattern, in order.
fn matchers_of(alloc: Global, patterns: &[Pattern]) -> Result<Vec<Matcher<'_>>, AllocError> {
    let mut matchers = Vec::new(alloc);
    for pattern in patterns {
        let matcher = pattern.matcher(alloc)?;
        matchers.push(matcher)?;
    }
    Ok(matchers)
}

impl Plan {
    ghost use Rattle.ctd_loader.specs.calls.Loading.{GivesProgramOrFault, LoadsFrom};
    ghost use Rattle.ctd_loader.specs.Loading.{IsReady, TextHasFault};

    /// The commands, with at most `NESTING_LIMIT` blocks open at each.
    pub fn commands(&self) -> &[Command]
        ensures whole { result.now ≡ self.now }
        ensures shallow { list_blocks (command_trees result.now) ≤ NESTING_LIMIT }
    {
        self.program.commands()
    }

    /// What searches for each of its patterns, in their order, with tables that no earlier search has filled. No contract says which
    /// these are: a command takes the one at its number only if it is of its literal.
    pub fn matchers(&self, alloc: Global) -> Result<Vec<Matcher<'_>>, AllocError> {
        matchers_of(alloc, self.patterns.as_slice())
    }

    /// The plan of a complete text.
    fn read(alloc: Global, text: &[u8]) -> Result<Plan, LoadFault>
        requires { length text.now ≤ PROGRAM_LIMIT }
        ensures loads { GivesProgramOrFault (IsReady text.now) (TextHasFault text.now) command_trees result }
        ensures memory { IfErr result (λ fault. fault.kind ≡ LoadKind.Memory → fault.place ≡ None) }
    {
        let program = parse(alloc, text)?;
        let patterns = patterns_in(alloc, program.commands())?;
        Ok(Plan { program, patterns })
    }

    /// As `load`, and leaves in `text` the bytes that the source gave, but where memory ran out.
    pub fn load_text<P: Source>(
        alloc: Global,
        program: &mut P,
        text: &mut Vec<u8>,
    ) -> Result<Plan, LoadFault>
        requires { P.seen program.old ≡ Going }
        ensures loads { LoadsFrom command_trees P.Source program.old program.new result }
        ensures memory { IfErr result (λ fault. fault.kind ≡ LoadKind.Memory → fault.place ≡ None) }
        ensures text { IsErrAnd result (λ fault. fault.kind ≡ LoadKind.Memory) ⊎ GaveBytes P.Source program.old program.new text.new.items }
    {
        let received = receive(alloc, program, PROGRAM_LIMIT + 1)?;
        let ReceivedText { bytes, failed } = received;
        *text = bytes;
        if text.len() > PROGRAM_LIMIT {
            return Err(LoadFault {
                kind: LoadKind::ProgramTooLong,
                place: None,
            });
        }
        if failed {
            return Err(LoadFault {
                kind: LoadKind::Read,
                place: None,
            });
        }
        Plan::read(alloc, text.as_slice())
    }

    /// Reads a program to its end: the commands that its text is.
    ///
    /// The source is read until it ends, until a read fails (`Read`), or until a byte more than a program may have came
    /// (`ProgramTooLong`). The text is then read as `ctd_syntax::parse` reads it. A literal of REGEX that is not UTF-8, or of which
    /// `regex` builds no pattern though it has the memory, is `BadPattern`, at its place; the first of them counts.
    pub fn load<P: Source>(alloc: Global, program: &mut P) -> Result<Plan, LoadFault>
        requires { P.seen program.old ≡ Going }
        ensures loads { LoadsFrom command_trees P.Source program.old program.new result }
        ensures memory { IfErr result (λ fault. fault.kind ≡ LoadKind.Memory → fault.place ≡ None) }
    {
        let mut text = Vec::new(alloc);
        Plan::load_text(alloc, program, &mut text)
    }
}
