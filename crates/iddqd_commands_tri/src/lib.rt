//! The calls of a `TriHashMap` as values (commands), for a program that reads them, keeps them, or replays them.
//!
//! With the trait [`TriCommands`] in scope, `map.apply(command, &mut sink)` carries out one command, and
//! `map.run(commands, &mut sink)` a list of them. The reply to each is handed to a sink of your own, a [`TriSink`].
//!
//! A script makes the three-key text from the two-key text: change the latter, and then run `tests/widths --write` with
//! the changed files.
//!
//! Made by tests/widths from crates/iddqd_commands_bi/src/lib.rt: change that file.
#![tactic(auto)]

mod command;
mod run;

pub use command::{TriCommand, TriReply, TriSink};
pub use run::TriCommands;

// What a reply is, and what it has of the maps' store.
pub use iddqd_commands::MapReply;
pub use iddqd_store::{DuplicateItem, InsertReason, Iter, UpToThree};
