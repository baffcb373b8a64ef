//! Laws of the command line, and no code: a contract is the statement of each.

ghost use Rattle.std.specs.Prelude.{ℕ, List};
ghost use Rattle.clap.specs.Words.{fault_of};
ghost use Rattle.ctd_arguments.specs.CommandLine.{checker};
ghost use Rattle.ctd_arguments.specs.calls.Usage.{IsSingle};

/// Whatever the words, clap finds at most one kind of error in them, so the fault is well defined.
pub fn refusals_have_one_kind()
    ensures { (words : List (List ℕ)) → IsSingle (fault_of checker words) }
{}
