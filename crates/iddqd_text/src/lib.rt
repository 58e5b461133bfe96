//! The text program between its reader and its writer: it runs a text of commands on a map with two or with three
//! keys. The program itself is `iddqd_run`.
//!
//! The modules `three_keys` and `item::tri`, with specs/ThreeKeys.antt, are the text of `two_keys`, `item::bi` and
//! specs/TwoKeys.antt at three keys, which a script writes: change that text, and then run `tests/widths --write` with
//! the changed files.
#![tactic(auto)]

pub mod command;
pub mod ends;
pub mod from_read;
pub mod item;
pub mod lines;
pub mod numbers;
pub mod outcome;
pub mod parse;
pub mod print;
pub mod read;
pub mod run;
pub mod sink;
pub mod three_keys;
pub mod to_write;
pub mod two_keys;
pub mod words;
pub mod write;
