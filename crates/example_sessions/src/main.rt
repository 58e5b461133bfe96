//! Reads lines about sessions, and answers each.
//!
//!     open ID TOKEN HOST PORT NOW    closed ID for each session that it closes, then ok
//!     token TOKEN                    ID TOKEN HOST PORT SEEN | none
//!     peer HOST PORT                 ID TOKEN HOST PORT SEEN | none
//!     touch TOKEN NOW                ok | none
//!     expire SINCE                   ok
//!     count                          how many sessions are open
//!     saved ID TOKEN HOST PORT SEEN  noted: the next `restore` opens this session
//!     restore                        restored N: all N sessions that were noted are open; or else none of them is, since
//!                                        line L: KEYS taken: an open session has these keys of the one of line L
//!                                        line L: KEYS taken, see line M: or that of line M has, the first that does
//!                                        line L: no memory
//!
//! Each word in capitals is a number, and KEYS are some of `id`, `token` and `peer`. `open` closes the session with the
//! number, the one with the token and the one with the peer, in this order. Any other line is answered by `bad line`, also
//! one that is not UTF-8.
#![tactic(auto)]

mod saved;
mod sessions;

use crate::saved::{Fault, Saved};
use crate::sessions::{Peer, Session, Sessions, by_token, count, expire, open, touch, with_peer};
use iddqd_sorted::TriHashOrdMap;
use std::hash::RandomState;
use std::io::BufRead;
use std::{io, mem};

/// What a line asks for.
enum Command {
    Open(Session),
    Token(u64),
    Peer(Peer),
    Touch(u64, u64),
    Expire(u64),
    Count,
    Note(Session),
    Restore,
}

/// Returns what the words of a line ask for, if they ask for anything.
fn parse(words: &[&str]) -> Option<Command> {
    Some(match words {
        ["open", id, token, host, port, now] => {
            Command::Open(parse_session(id, token, parse_peer(host, port)?, now)?)
        }
        ["token", token] => Command::Token(token.parse().ok()?),
        ["peer", host, port] => Command::Peer(parse_peer(host, port)?),
        ["touch", token, now] => Command::Touch(token.parse().ok()?, now.parse().ok()?),
        ["expire", since] => Command::Expire(since.parse().ok()?),
        ["count"] => Command::Count,
        ["saved", id, token, host, port, seen] => {
            Command::Note(parse_session(id, token, parse_peer(host, port)?, seen)?)
        }
        ["restore"] => Command::Restore,
        _ => return None,
    })
}

/// Returns the session with this number, token, peer and time, if the words are some.
fn parse_session(id: &str, token: &str, peer: Peer, seen: &str) -> Option<Session> {
    Some(Session {
        id: id.parse().ok()?,
        token: token.parse().ok()?,
        peer,
        seen: seen.parse().ok()?,
    })
}

/// Returns the peer with this address, if the words are one.
fn parse_peer(host: &str, port: &str) -> Option<Peer> {
    Some(Peer {
        host: host.parse().ok()?,
        port: port.parse().ok()?,
    })
}

/// Prints the session that was found, if there is one.
fn show(rt: &impl Print, found: Option<&Session>) -> io::Result<()> {
    match found {
        Some(session) => {
            let Peer { host, port } = session.peer;
            println!(rt;
                "{} {} {host} {port} {}",
                session.id, session.token, session.seen
            )
        }
        None => rt.println("none"),
    }
}

/// Opens a session. If there is no memory for it, the error says so, and the program ends.
fn answer_open(rt: &impl Print, sessions: &mut Sessions, session: Session) -> io::Result<()> {
    for closed in open(sessions, session)? {
        println!(rt; "closed {}", closed.id)?;
    }
    rt.println("ok")
}

/// Prints why the saved sessions were not opened.
fn show_fault(rt: &impl Print, fault: Fault) -> io::Result<()> {
    let line = fault.line;
    let keys = match (fault.id, fault.token, fault.peer) {
        (true, true, true) => "id, token and peer",
        (true, true, false) => "id and token",
        (true, false, true) => "id and peer",
        (false, true, true) => "token and peer",
        (true, false, false) => "id",
        (false, true, false) => "token",
        (false, false, true) => "peer",
        (false, false, false) => return println!(rt; "line {line}: no memory"),
    };
    match fault.earlier {
        Some(first) => println!(rt; "line {line}: {keys} taken, see line {first}"),
        None => println!(rt; "line {line}: {keys} taken"),
    }
}

/// Carries out the command of a line, and prints the answer.
fn answer(
    rt: &(impl Print + AllocGlobal),
    sessions: &mut Sessions,
    saved: &mut Saved,
    line: u64,
    command: Command,
) -> io::Result<()> {
    match command {
        Command::Open(session) => answer_open(rt, sessions, session),
        Command::Token(token) => show(rt, by_token(sessions, token)),
        Command::Peer(peer) => show(rt, with_peer(sessions, &peer)),
        Command::Touch(token, now) => {
            let found = touch(sessions, token, now);
            rt.println(if found { "ok" } else { "none" })
        }
        Command::Expire(since) => {
            expire(sessions, since);
            rt.println("ok")
        }
        Command::Count => println!(rt; "{}", count(sessions)),
        Command::Note(session) => {
            saved.add(line, session)?;
            rt.println("noted")
        }
        Command::Restore => match mem::replace(saved, Saved::new(rt.alloc())).open(sessions) {
            Ok(count) => println!(rt; "restored {count}"),
            Err(fault) => show_fault(rt, fault),
        },
    }
}

/// Carries out the command of a line with this number, and prints the answer.
fn answer_line(
    rt: &(impl Print + AllocGlobal),
    sessions: &mut Sessions,
    saved: &mut Saved,
    number: u64,
    line: &[u8],
) -> io::Result<()> {
    let Ok(line) = str::from_utf8(line) else {
        return rt.println("bad line");
    };
    let words: Vec<&str> = line.split_whitespace().collect(rt.alloc())?;
    match parse(words.as_slice()) {
        Some(command) => answer(rt, sessions, saved, number, command),
        None => rt.println("bad line"),
    }
}

/// Answers each line of the input.
fn answer_lines(
    rt: &(impl Print + Input + AllocGlobal),
    sessions: &mut Sessions,
    saved: &mut Saved,
) -> io::Result<()> {
    let mut number: u64 = 0;
    for line in rt.reader().split(rt.alloc(), b'\n') {
        number = number.saturating_add(1);
        answer_line(rt, sessions, saved, number, line?.as_slice())?;
    }
    Ok(())
}

fn main(rt: HostRuntime) -> io::Result<()> {
    let mut sessions = TriHashOrdMap::with_hasher(rt.alloc(), RandomState::new(&rt)?);
    let mut saved = Saved::new(rt.alloc());
    answer_lines(&rt, &mut sessions, &mut saved)
}
