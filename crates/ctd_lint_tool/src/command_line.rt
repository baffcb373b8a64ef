//! The words of the command line.

ghost use Rattle.std.specs.Prelude.{◌≡◌, ◌⊎◌, IfErr, IfOk, List, MatchResult, None, Some, codes, map, option_map};
ghost use Rattle.clap.specs.Words.{FailsBy, Text, all_of, app_of, fault_of, found_of, matches_of, rows_of, rule_of};
ghost use Rattle.ctd_arguments.specs.calls.Options.{IsLocal};
ghost use Rattle.ctd_lint_tool.specs.calls.CommandLine.{AreKindsOf, IsLintSetup, form_by, linter, parts, programs_rule};
ghost use Rattle.ctd_lint_report.specs.calls.Kinds.{lint_kind_named};
ghost use Rattle.ctd_lint_tool.specs.calls.Usage.{IsLintFault, TellsUnknown, first_unknown, unknown_in};
ghost use Rattle.ctd_lint_tool.specs.inner.Usage.{IsFoundIn};

use clap::{Arg, ArgAction, ArgMatches, Command, Error};
use ctd_arguments::{
    UsageFault, define_option, fault_for, flag, is_set, option, presets_of, texts_of, value_of,
};
use ctd_lint_report::{Form, LintKind, LintSetup};
use ctd_token::Bytes;
use std::alloc::{AllocError, Global};

/// What the words ask for.
pub(crate) struct Setup {
    /// The names of the programs' files.
    pub(crate) programs: Vec<Bytes>,
    /// What the report of each is asked for.
    pub(crate) report: LintSetup,
}

impl Drop for Setup {
    fn drop(self) {
        let Setup {
            programs: _,
            report: _,
        } = self;
    }
}

/// Why the words ask for no program.
#[derive(Drop)]
pub(crate) enum LintFault {
    /// The words are not those of a command line of this program.
    Words,
    /// The text of the presets spells none.
    BadPreset,
    /// There is no kind of this name.
    UnknownKind(Bytes),
    /// The help is asked for.
    Help,
    /// The version is asked for.
    Version,
    /// No memory was left for the words.
    Memory,
}

impl From<AllocError> for LintFault {
    ghost use Rattle.ctd_lint_tool.specs.declared.command_line.LintFault.TheVariants.{Memory};

    ghost from_gives = { λ _ fault. fault ≡ Memory };

    fn from(_: AllocError) -> LintFault {
        LintFault::Memory
    }
}

impl From<UsageFault> for LintFault {
    ghost use Rattle.ctd_lint_tool.specs.calls.Usage.{lint_fault};

    ghost from_gives = { λ usage fault. fault ≡ lint_fault usage };

    fn from(usage: UsageFault) -> LintFault {
        match usage {
            UsageFault::Help => LintFault::Help,
            UsageFault::Version => LintFault::Version,
            UsageFault::BadPreset => LintFault::BadPreset,
            UsageFault::Memory => LintFault::Memory,
            UsageFault::Words | UsageFault::BadSteps | UsageFault::Generate => LintFault::Words,
        }
    }
}

/// The names of the programs' files, of which one has to be there.
fn program_names<'a>(alloc: Global) -> Arg<'a>
    ensures rule { rule_of result ≡ programs_rule }
    ensures local { IsLocal result }
{
    Arg::new(alloc, "PROGRAM")
        .required(true)
        .action(ArgAction::Append)
}

/// The command line of ctd-lint.
fn command<'a>(alloc: Global) -> Result<Command<'a>, AllocError>
    ensures linter { IfOk result (λ c. app_of c ≡ linter) }
{
    let arguments = vec![in alloc;
        define_option(alloc),
        option(alloc, "ignore"),
        flag(alloc, "verdicts"),
        flag(alloc, "guarantees"),
        flag(alloc, "json"),
        program_names(alloc),
    ]?;
    Command::new(alloc, "ctd-lint")
        .version("1.0")
        .args(arguments)
}

/// What clap finds in the words, the program's own name first.
fn matches_in<'a>(alloc: Global, words: &'a [&'a str]) -> Result<ArgMatches<'a>, Error>
    ensures found { IfOk result (λ m. rows_of (found_of m) ≡ matches_of linter (map (λ w. w.now) words.entry.now)) }
    ensures fault { FailsBy (fault_of linter (map (λ w. w.now) words.entry.now)) result }
{
    command(alloc)?.try_get_matches_from(words)
}

/// The values that the words give to an option or an argument, if it is there.
fn values_of<'m, 'a>(matches: &'m ArgMatches<'a>, name: &str) -> Option<&'m [&'a str]>
    ensures { option_map (λ vs. map (λ v. v.now) vs.now) result ≡ all_of name.now (rows_of (found_of matches.now)) }
{
    matches.get_strs(name)
}

/// The parts of a text between commas.
fn parts_of<'t>(alloc: Global, text: &'t str) -> Result<Vec<&'t str>, AllocError>
    ensures { IfOk result (λ found. map (λ part. part.now) found.items ≡ parts text.now) }
{
    text.split(',').collect(alloc)
}

/// The kinds of some names.
fn kinds_named(alloc: Global, names: &[&str]) -> Result<Vec<LintKind>, LintFault>
    ensures kinds { IfOk result (λ kinds. map Some kinds.items ≡ map lint_kind_named (map (λ name. name.now) names.now)) }
    ensures fault { IfErr result (λ f. (f ≡ LintFault.Memory) ⊎ TellsUnknown (first_unknown (map (λ name. name.now) names.now)) f) }
{
    let mut kinds = Vec::new(alloc);
    for name in names {
        let Some(kind) = LintKind::named(name) else {
            return Err(LintFault::UnknownKind(Bytes::copy(alloc, name.as_bytes())?));
        };
        let Ok(()) = kinds.push(kind) else {
            return Err(LintFault::Memory);
        };
    }
    Ok(kinds)
}

/// The kinds that are left out.
fn kinds_of(alloc: Global, text: Option<&str>) -> Result<Vec<LintKind>, LintFault>
    ensures kinds { IfOk result (λ kinds. AreKindsOf (option_map (λ t. t.now) text.entry) kinds.items) }
    ensures fault { IfErr result (λ f. (f ≡ LintFault.Memory) ⊎ TellsUnknown (unknown_in (option_map (λ t. t.now) text.entry)) f) }
{
    match text {
        None => Ok(Vec::new(alloc)),
        Some(text) => {
            let parts = parts_of(alloc, text)?;
            kinds_named(alloc, parts.as_slice())
        }
    }
}

/// Copies of some names.
fn copies_of(alloc: Global, names: &[&str]) -> Result<Vec<Bytes>, LintFault>
    ensures copies { IfOk result (λ copies. copies.items ≡ map (λ name. name.now) names.now) }
    ensures fault { IfErr result (λ f. f ≡ LintFault.Memory) }
{
    let mut copies = Vec::new(alloc);
    for name in names {
        let copy = Bytes::copy(alloc, name.as_bytes())?;
        let Ok(()) = copies.push(copy) else {
            return Err(LintFault::Memory);
        };
    }
    Ok(copies)
}

/// The names of the programs' files.
fn programs_of(alloc: Global, matches: &ArgMatches<'_>) -> Result<Vec<Bytes>, LintFault>
    ensures { let names = all_of (codes "PROGRAM") (rows_of (found_of matches.now)) in
        MatchResult result (λ programs. names ≡ Some programs.items)
        (λ f. (f ≡ LintFault.Memory) ⊎ ((f ≡ LintFault.Words) × (names ≡ None))) }
{
    match values_of(matches, "PROGRAM") {
        Some(names) => copies_of(alloc, names),
        None => Err(LintFault::Words),
    }
}

/// The form of the reports, by whether it is to be JSON.
fn form_by(is_json: bool) -> Form
    ensures { result ≡ form_by is_json }
{
    if is_json { Form::Json } else { Form::Text }
}

/// What is asked for by the values that clap found.
fn setup_of(alloc: Global, matches: &ArgMatches<'_>) -> Result<Setup, LintFault>
    ensures setup { IfOk result (λ s. (words : List Text) → IsFoundIn words (rows_of (found_of matches.now)) → IsLintSetup words s) }
    ensures fault { IfErr result (λ f. (words : List Text) → IsFoundIn words (rows_of (found_of matches.now)) → IsLintFault words f) }
{
    let programs = programs_of(alloc, matches)?;
    let presets = presets_of(alloc, value_of(matches, "define"))?;
    let ignored = kinds_of(alloc, value_of(matches, "ignore"))?;
    let report = LintSetup {
        presets,
        ignored,
        verdicts: is_set(matches, "verdicts"),
        guarantees: is_set(matches, "guarantees"),
        form: form_by(is_set(matches, "json")),
    };
    Ok(Setup { programs, report })
}

/// What the words ask for: after the program's own name the options and flags, and PROGRAM once or more.
///
/// The first of these that applies is the fault: a word that is not UTF-8 (Words); what clap refuses, or answers with the
/// help or the version (Words, Help, Version); BadPreset; UnknownKind. Memory may come at any of them.
pub(crate) fn settings(alloc: Global, words: &[Bytes]) -> Result<Setup, LintFault>
    ensures setup { IfOk result (IsLintSetup words.now) }
    ensures fault { IfErr result (IsLintFault words.now) }
{
    let texts = texts_of(alloc, words)?;
    match matches_in(alloc, texts.as_slice()) {
        Ok(matches) => setup_of(alloc, &matches),
        Err(error) => Err(fault_for(&error).into()),
    }
}
