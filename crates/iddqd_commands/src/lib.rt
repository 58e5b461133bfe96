//! What a command on a map returns, for maps with any number of keys: the type of the replies, and the definitions of a
//! step and of a run of commands.
//!
//! The commands themselves are in `iddqd_commands_bi` and `iddqd_commands_tri`.
#![tactic(auto)]

mod reply;

pub use reply::MapReply;
