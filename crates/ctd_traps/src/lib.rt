//! Where a run of a program may stop without a verdict, what never happens in its runs, and what is known of its variables.
#![tactic(auto)]

mod anything;
mod block;
mod budget;
mod collector;
mod joined;
mod known;
mod lasting;
mod mentions;
mod names;
mod never;
mod note;
mod pairs;
mod passage;
mod program;
mod roles;
mod simple;
mod spare;
mod start;
mod trap;
mod turn;
mod unroll;
mod walk;
mod widest;

pub use block::{CommandInBlock, all_commands};
pub use collector::Collector;
pub use joined::{Asked, Moment};
pub use known::{Knowledge, Known, KnownAt};
pub use mentions::{MentionedName, Use, all_mentions, list_mentions, mentions_of};
pub use note::{EventKind, Note};
pub use program::{TrapList, events_are_of_the_run, traps};
pub use roles::{Role, has_role, is_in_role, names_in_role};
pub use trap::Trap;
