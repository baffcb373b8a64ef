//! The options and arguments that the command line takes, read by clap.

ghost use Rattle.std.specs.Prelude.{◌≡◌, IfOk, None, Some, codes, is_some, map, true};
ghost use Rattle.clap.specs.Built.{TakesValue};
ghost use Rattle.clap.specs.Matches.{first_value};
ghost use Rattle.clap.specs.Words.{FailsBy, app_of, fault_of, found_of, matches_of, new_rule, rows_of, rule_of};
ghost use Rattle.clap.specs.declared.builder.ArgAction.TheVariants.{Set, SetTrue};
ghost use Rattle.ctd_arguments.specs.CommandLine.{checker, option_rule};
ghost use Rattle.ctd_arguments.specs.calls.Options.{IsLocal};
ghost use Rattle.ctd_arguments.specs.inner.RequiredProgram.{RequiresProgram};

use clap::{Arg, ArgAction, ArgMatches, Command, Error};
use std::alloc::{AllocError, Global};

/// A flag with a long name.
pub fn flag<'a>(alloc: Global, name: &'a str) -> Arg<'a>
    ensures rule { rule_of result ≡ option_rule name.entry.now None SetTrue }
    ensures name { result.id.now ≡ name.entry.now }
    ensures local { IsLocal result }
{
    Arg::new(alloc, name).long(name).action(ArgAction::SetTrue)
}

/// A flag with a long and a short name.
fn short_flag<'a>(alloc: Global, name: &'a str, short: char) -> Arg<'a>
    ensures rule { rule_of result ≡ option_rule name.entry.now (Some short) SetTrue }
    ensures name { result.id.now ≡ name.entry.now }
    ensures local { IsLocal result }
{
    flag(alloc, name).short(short)
}

/// An option with a long name, which takes a value.
pub fn option<'a>(alloc: Global, name: &'a str) -> Arg<'a>
    ensures rule { rule_of result ≡ option_rule name.entry.now None Set }
    ensures name { result.id.now ≡ name.entry.now }
    ensures local { IsLocal result }
{
    Arg::new(alloc, name).long(name).action(ArgAction::Set)
}

/// The option of the presets.
pub fn define_option<'a>(alloc: Global) -> Arg<'a>
    ensures rule { rule_of result ≡ option_rule (codes "define") (Some 68) Set }
    ensures name { result.id.now ≡ codes "define" }
    ensures local { IsLocal result }
{
    option(alloc, "define").short('D')
}

/// The name of the program's file, which has to be there.
fn program_name<'a>(alloc: Global) -> Arg<'a>
    ensures rule { rule_of result ≡ record (new_rule (codes "PROGRAM")) { required = true; action = Some Set } }
    ensures name { result.id.now ≡ codes "PROGRAM" }
    ensures local { IsLocal result }
    ensures takes { TakesValue result }
{
    Arg::new(alloc, "PROGRAM")
        .required(true)
        .action(ArgAction::Set)
}

/// The command line of the checker.
fn command<'a>(alloc: Global) -> Result<Command<'a>, AllocError>
    ensures checker { IfOk result (λ c. app_of c ≡ checker) }
    ensures program { IfOk result RequiresProgram }
{
    let arguments = vec![in alloc;
        short_flag(alloc, "generate", 'g'),
        define_option(alloc),
        short_flag(alloc, "quiet", 'q'),
        short_flag(alloc, "whitespace-ok", 'w'),
        option(alloc, "max-steps"),
        program_name(alloc),
        Arg::new(alloc, "TESTDATA"),
    ]?;
    Command::new(alloc, "checktestdata")
        .version("1.0")
        .args(arguments)
}

/// What clap finds in the words, the program's own name first.
pub(crate) fn matches_in<'a>(alloc: Global, words: &'a [&'a str]) -> Result<ArgMatches<'a>, Error>
    ensures found { IfOk result (λ m. rows_of (found_of m) ≡ matches_of checker (map (λ w. w.now) words.entry.now)) }
    ensures named { IfOk result (λ m. is_some (first_value (found_of m) (codes "PROGRAM")) ≡ true) }
    ensures fault { FailsBy (fault_of checker (map (λ w. w.now) words.entry.now)) result }
{
    command(alloc)?.try_get_matches_from(words)
}
