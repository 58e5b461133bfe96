//! Reads lines about users, and answers each.
//!
//!     enter NAME TIME    ok | name taken
//!     find NAME          NAME TIME | none
//!     note NAME TIME     ok | none
//!     rename NAME NEW    ok | none | name taken
//!     leave NAME         NAME TIME | none
//!     count              how many users there are
//!
//! A time is a number. Any other line is answered by `bad line`, also one that is not UTF-8.
#![tactic(auto)]

mod users;

use crate::users::{User, enter, find, leave, note, rename};
use iddqd_id::{IdHashMap, NotReplaced};
use std::alloc::AllocError;
use std::io;
use std::io::BufRead;

/// What a line asks for, with the names that are in the line.
enum Command<'l> {
    Enter(&'l str, u64),
    Find(&'l str),
    Note(&'l str, u64),
    Rename(&'l str, &'l str),
    Leave(&'l str),
    Count,
}

/// Returns what the words of a line ask for, if they ask for anything.
fn parse<'l>(words: &[&'l str]) -> Option<Command<'l>> {
    Some(match words {
        ["enter", name, time] => Command::Enter(name, time.parse().ok()?),
        ["find", name] => Command::Find(name),
        ["note", name, time] => Command::Note(name, time.parse().ok()?),
        ["rename", name, new] => Command::Rename(name, new),
        ["leave", name] => Command::Leave(name),
        ["count"] => Command::Count,
        _ => return None,
    })
}

/// Prints the user that was found, if there is one.
fn show(rt: &impl Print, found: Option<&User>) -> io::Result<()> {
    match found {
        Some(user) => println!(rt; "{} {}", user.name, user.seen),
        None => rt.println("none"),
    }
}

/// Enters a user. If there is no memory for them, the error says so, and the program ends.
fn answer_enter(
    rt: &(impl Print + AllocGlobal),
    users: &mut IdHashMap<User>,
    name: &str,
    seen: u64,
) -> io::Result<()> {
    let user = User {
        name: name.to_string(rt.alloc())?,
        seen,
    };
    match enter(users, user) {
        Ok(()) => rt.println("ok"),
        Err(_user) if users.contains_key(name) => rt.println("name taken"),
        Err(_user) => Err(AllocError.into()),
    }
}

/// Gives the user of this name another one.
fn answer_rename(
    rt: &(impl Print + AllocGlobal),
    users: &mut IdHashMap<User>,
    name: &str,
    new: &str,
) -> io::Result<()> {
    let new = new.to_string(rt.alloc())?;
    rt.println(match rename(users, name, new) {
        Ok(_user) => "ok",
        Err(NotReplaced::Absent(_user)) => "none",
        Err(NotReplaced::Duplicate(_user)) => "name taken",
    })
}

/// Carries out a command, and prints the answer.
fn answer(
    rt: &(impl Print + AllocGlobal),
    users: &mut IdHashMap<User>,
    command: Command,
) -> io::Result<()> {
    match command {
        Command::Enter(name, time) => answer_enter(rt, users, name, time),
        Command::Find(name) => show(rt, find(users, name)),
        Command::Note(name, time) => {
            let noted = note(users, name, time);
            rt.println(if noted { "ok" } else { "none" })
        }
        Command::Rename(name, new) => answer_rename(rt, users, name, new),
        Command::Leave(name) => {
            let gone = leave(users, name);
            show(rt, gone.as_ref())
        }
        Command::Count => println!(rt; "{}", users.len()),
    }
}

/// Carries out the command of a line, and prints the answer.
fn answer_line(
    rt: &(impl Print + AllocGlobal),
    users: &mut IdHashMap<User>,
    line: &[u8],
) -> io::Result<()> {
    let Ok(line) = str::from_utf8(line) else {
        return rt.println("bad line");
    };
    let words: Vec<&str> = line.split_whitespace().collect(rt.alloc())?;
    match parse(words.as_slice()) {
        Some(command) => answer(rt, users, command),
        None => rt.println("bad line"),
    }
}

/// Answers each line of the input.
fn answer_lines(
    rt: &(impl Print + Input + AllocGlobal),
    users: &mut IdHashMap<User>,
) -> io::Result<()> {
    for line in rt.reader().split(rt.alloc(), b'\n') {
        answer_line(rt, users, line?.as_slice())?;
    }
    Ok(())
}

fn main(rt: HostRuntime) -> io::Result<()> {
    let mut users = IdHashMap::new(rt.alloc());
    answer_lines(&rt, &mut users)
}
