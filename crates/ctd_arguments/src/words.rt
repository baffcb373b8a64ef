//! The words of the command line.

ghost use Rattle.std.specs.Prelude.{◌≡◌, ◌⊎◌, All, IfErr, IfOk, IsUtf8, List, MatchResult, codes, is_some, map, option_map, true};
ghost use Rattle.std.specs.Option.{SomeIff};
ghost use Rattle.std.specs.Str.Parse.{digits_value};
ghost use Rattle.clap.specs.Matches.{first_value};
ghost use Rattle.clap.specs.Words.{Text, first_of, found_of, kind_of, rows_of};
ghost use Rattle.ctd_arguments.specs.Settings.{IsSetup};
ghost use Rattle.ctd_arguments.specs.inner.Usage.{file_of, mode_by};
ghost use Rattle.ctd_arguments.specs.Usage.{ArePresetsOf, IsStepLimitOf, IsStepNumber, IsUsageFault, fault_by_kind};
ghost use Rattle.ctd_arguments.specs.calls.Usage.{HasNoPresets, is_on};
ghost use Rattle.ctd_arguments.specs.inner.Usage.{HasNoStepLimit, IsFoundIn};

use crate::command_line::matches_in;
use crate::setup::{Setup, UsageFault};
use clap::error::ErrorKind;
use clap::{ArgMatches, Error};
use ctd_program::{Limits, Mode, PresetFault, Presets};
use ctd_token::Bytes;
use std::alloc::{AllocError, Global};
use std::str::from_utf8;

/// The steps that a check may pay where the words give no limit.
const STEPS: u64 = 10_000_000_000;

/// The bytes that the data may have.
const BYTES: u64 = 1 << 40;

impl From<AllocError> for UsageFault {
    ghost use Rattle.ctd_arguments.specs.declared.setup.UsageFault.TheVariants.{Memory};

    ghost from_gives = { λ _ fault. fault ≡ Memory };

    fn from(_: AllocError) -> UsageFault {
        UsageFault::Memory
    }
}

/// The words as texts.
pub fn texts_of<'w>(alloc: Global, words: &'w [Bytes]) -> Result<Vec<&'w str>, UsageFault>
    ensures ok { IfOk result (λ texts. map (λ text. text.now) texts.items ≡ words.now) }
    ensures text { IfOk result (λ _. All IsUtf8 words.now) }
    ensures refused { result ≡ Err UsageFault.Words → ¬ (All IsUtf8 words.now) }
    ensures faults { IfErr result (λ fault. (fault ≡ UsageFault.Words) ⊎ (fault ≡ UsageFault.Memory)) }
{
    let mut texts = Vec::new(alloc);
    for word in words {
        let Ok(text) = from_utf8(word.as_slice()) else {
            return Err(UsageFault::Words);
        };
        let Ok(()) = texts.push(text) else {
            return Err(UsageFault::Memory);
        };
    }
    Ok(texts)
}

/// The fault for an error of clap.
pub fn fault_for(error: &Error) -> UsageFault
    ensures { result ≡ fault_by_kind (kind_of error.now) }
{
    match error.kind() {
        ErrorKind::DisplayHelp => UsageFault::Help,
        ErrorKind::DisplayVersion => UsageFault::Version,
        ErrorKind::OutOfMemory => UsageFault::Memory,
        _ => UsageFault::Words,
    }
}

/// The value that the words give to an option or an argument.
pub fn value_of<'a>(matches: &ArgMatches<'a>, name: &str) -> Option<&'a str>
    ensures { option_map (λ v. v.now) result ≡ first_of name.now (rows_of (found_of matches.now)) }
{
    matches.get_str(name)
}

/// Whether the words give a flag.
pub fn is_set(matches: &ArgMatches<'_>, name: &str) -> bool
    ensures { result ≡ is_on name.now (rows_of (found_of matches.now)) }
{
    match value_of(matches, name) {
        Some(value) => value == "true",
        None => false,
    }
}

/// The number of steps that a text of digits gives.
fn steps_in(text: &str) -> Option<u64>
    ensures { SomeIff result (IsStepNumber text.now) (digits_value 10 text.now) }
{
    // `parse` takes a plus too
    if text.as_bytes().first() == Some(&b'+') {
        None
    } else {
        text.parse().ok()
    }
}

/// The limit on steps.
fn step_limit(text: Option<&str>) -> Result<u64, UsageFault>
    ensures { let given = option_map (λ t. t.now) text.entry in
        MatchResult result (IsStepLimitOf given) (λ f. (f ≡ UsageFault.BadSteps) × HasNoStepLimit given) }
{
    match text {
        None => Ok(STEPS),
        Some(text) => steps_in(text).ok_or(UsageFault::BadSteps),
    }
}

/// The presets.
pub fn presets_of(alloc: Global, text: Option<&str>) -> Result<Presets, UsageFault>
    ensures { let given = option_map (λ t. t.now) text.entry in
        MatchResult result (ArePresetsOf given)
        (λ f. (f ≡ UsageFault.Memory) ⊎ ((f ≡ UsageFault.BadPreset) × HasNoPresets given)) }
{
    match text {
        None => Ok(Presets::none(alloc)),
        Some(text) => match Presets::read(alloc, text) {
            Ok(presets) => Ok(presets),
            Err(PresetFault::BadPreset) => Err(UsageFault::BadPreset),
            Err(PresetFault::Memory) => Err(UsageFault::Memory),
        },
    }
}

/// How blanks are matched.
fn mode_of(matches: &ArgMatches<'_>) -> Mode
    ensures { result ≡ mode_by (is_on (codes "whitespace-ok") (rows_of (found_of matches.now))) }
{
    if is_set(matches, "whitespace-ok") {
        Mode::BlanksOk
    } else {
        Mode::Exact
    }
}

/// The file that a name stands for; `-` and no name at all stand for standard input.
fn file_named(alloc: Global, name: Option<&str>) -> Result<Option<Bytes>, AllocError>
    ensures { IfOk result (λ file. file ≡ file_of (option_map (λ v. v.now) name.entry)) }
{
    match name {
        None | Some("-") => Ok(None),
        Some(name) => Ok(Some(Bytes::copy(alloc, name.as_bytes())?)),
    }
}

/// The settings that clap found in the words. The faults are those of `settings` that come after clap's own.
fn setup_of(alloc: Global, matches: &ArgMatches<'_>) -> Result<Setup, UsageFault>
    requires named { is_some (first_value (found_of matches.now) (codes "PROGRAM")) ≡ true }
    ensures setup { IfOk result (λ s. (words : List Text) → IsFoundIn words (rows_of (found_of matches.now)) → IsSetup words s) }
    ensures fault { IfErr result (λ f. (words : List Text) → IsFoundIn words (rows_of (found_of matches.now)) → IsUsageFault words f) }
{
    if is_set(matches, "generate") {
        return Err(UsageFault::Generate);
    }
    let presets = presets_of(alloc, value_of(matches, "define"))?;
    let steps = step_limit(value_of(matches, "max-steps"))?;
    let program = value_of(matches, "PROGRAM").unwrap_or("");
    Ok(Setup {
        program: Bytes::copy(alloc, program.as_bytes())?,
        testdata: file_named(alloc, value_of(matches, "TESTDATA"))?,
        presets,
        mode: mode_of(matches),
        quiet: is_set(matches, "quiet"),
        limits: Limits {
            steps,
            bytes: BYTES,
        },
    })
}

/// The settings that the words ask for: after the program's own name the options, PROGRAM, and perhaps TESTDATA.
///
/// The first of these that applies is the fault: a word that is not UTF-8 (Words); what clap refuses, or answers with the
/// help or the version (Words, Help, Version); `-g` (Generate); BadPreset; BadSteps. Memory may come at any of them.
pub fn settings(alloc: Global, words: &[Bytes]) -> Result<Setup, UsageFault>
    ensures setup { IfOk result (IsSetup words.now) }
    ensures fault { IfErr result (IsUsageFault words.now) }
{
    let texts = texts_of(alloc, words)?;
    match matches_in(alloc, texts.as_slice()) {
        Ok(matches) => setup_of(alloc, &matches),
        Err(error) => Err(fault_for(&error)),
    }
}
