//! The laws of the run. They have no code: each contract is a law that holds of every run.

ghost use Rattle.ctd_check.specs.calls.BigSteps.{BigStepsHold, BigStepsHaveOneEnd, MeaningIsBigSteps};
ghost use Rattle.ctd_check.specs.calls.ByLooks.{VisibleBytesAreSeen, LooksHaveOneEffect, IntegersGoByLooks, BlanksGoByLooks, StringsGoByVisibleBytes};
ghost use Rattle.ctd_check.specs.calls.Laws.{ListsRunInTurn, CommandsMeanInTurn, OfEveryProgram, StepsAreWithin, EnoughStepsAgree, TooFewStepsStop, LowerLimitsStop, MoreStepsConsumeNoLess, CostIsTheSame, LooksAWindowAhead, UnreadBytesDoNotCount, TakenBytesDecide, FindsDataOfCall, FindsKnownBytes};

use ctd_source::Source;

/// The run of two lists of tasks is the run of the first and then, from the state that it left, of the second; and so a
/// program of two lists of commands means what they mean in turn.
pub fn lists_run_in_turn()
    ensures in_turn { ListsRunInTurn }
    ensures commands { CommandsMeanInTurn }
{}

/// A limit of steps does nothing but stop a run: under every limit of at least the steps paid a program means the same, and
/// under every lower one the outcome is StepLimit.
pub fn step_limits_only_stop()
    ensures within { OfEveryProgram StepsAreWithin }
    ensures enough { OfEveryProgram EnoughStepsAgree }
    ensures too_few { OfEveryProgram TooFewStepsStop }
    ensures lower { OfEveryProgram LowerLimitsStop }
    ensures more { OfEveryProgram MoreStepsConsumeNoLess }
    ensures cost { CostIsTheSame }
{}

/// No program looks more than a window past what it consumes: data that agree up to there have the same meaning.
pub fn looks_a_window_ahead()
    ensures ahead { LooksAWindowAhead }
{}

/// Bytes that a program does not look at do not count: what it means on some bytes, after which a read failed, it means on
/// all data that begin with these bytes, unless the failed read stopped it.
pub fn unread_bytes_do_not_count()
    ensures unread { UnreadBytesDoNotCount }
{}

/// What `check` found is so of all data that agree with the bytes that it took and the end that it saw.
pub fn taken_bytes_decide<D: Source>()
    ensures decide { TakenBytesDecide D.Source }
{}

/// What `check` found is the meaning on the data of the call: the bytes that the source gave in it, followed by those that
/// it has left. If the source tells its bytes, as a slice does, and no read failed, its bytes are the data.
pub fn data_of_call_are_checked<D: Source>()
    ensures call { FindsDataOfCall D.Source }
    ensures bytes { FindsKnownBytes D.Source }
{}

/// The run of a program in big steps, by one rule for each way in which a list of commands, a command or a turn goes on or
/// ends, is its run task by task: every program ends in one way and in no other, and that is its meaning.
pub fn big_steps_are_the_run()
    ensures holds { BigStepsHold }
    ensures one { BigStepsHaveOneEnd }
    ensures meaning { MeaningIsBigSteps }
{}

/// INT and blanks see one byte after the other: what their definitions say of the visible bytes is what looks give, one at
/// each offset, and a fault of a look stops them with the bytes before it consumed. STRING, whose definition goes byte by
/// byte, passes as many of the visible bytes as agree with it.
pub fn commands_look_byte_by_byte()
    ensures seen { VisibleBytesAreSeen }
    ensures one { LooksHaveOneEffect }
    ensures integers { IntegersGoByLooks }
    ensures blanks { BlanksGoByLooks }
    ensures strings { StringsGoByVisibleBytes }
{}
