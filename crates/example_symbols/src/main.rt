//! Reads lines about symbols, and answers each.
//!
//!     def NAME ADDRESS      ok | name taken | address taken
//!     name NAME             NAME ADDRESS | none
//!     at ADDRESS            NAME ADDRESS | none
//!     undef NAME            NAME ADDRESS | none
//!     rename ADDRESS NAME   ok | none | name taken
//!     count                 how many symbols there are
//!
//! An address is a number. Any other line is answered by `bad line`, also one that is not UTF-8.
#![tactic(auto)]

mod symbols;

use crate::symbols::{Symbol, at_address, define, rename, resolve, undefine};
use iddqd_bi::{BiHashMap, NotReplaced, Rejected};
use std::alloc::AllocError;
use std::io;
use std::io::BufRead;

/// What a line asks for, with the names that are in the line.
enum Command<'l> {
    Define(&'l str, u64),
    Name(&'l str),
    At(u64),
    Undefine(&'l str),
    Rename(u64, &'l str),
    Count,
}

/// Returns what the words of a line ask for, if they ask for anything.
fn parse<'l>(words: &[&'l str]) -> Option<Command<'l>> {
    Some(match words {
        ["def", name, address] => Command::Define(name, address.parse().ok()?),
        ["name", name] => Command::Name(name),
        ["at", address] => Command::At(address.parse().ok()?),
        ["undef", name] => Command::Undefine(name),
        ["rename", address, name] => Command::Rename(address.parse().ok()?, name),
        ["count"] => Command::Count,
        _ => return None,
    })
}

/// Prints the symbol that was found, if there is one.
fn show(rt: &impl Print, found: Option<&Symbol>) -> io::Result<()> {
    match found {
        Some(symbol) => println!(rt; "{} {}", symbol.name, symbol.address),
        None => rt.println("none"),
    }
}

/// Defines a symbol. If there is no memory for it, the error says so, and the program ends.
fn answer_define(
    rt: &(impl Print + AllocGlobal),
    symbols: &mut BiHashMap<Symbol>,
    name: &str,
    address: u64,
) -> io::Result<()> {
    let symbol = Symbol {
        name: name.to_string(rt.alloc())?,
        address,
    };
    match define(symbols, symbol) {
        Ok(()) => rt.println("ok"),
        Err(Rejected { taken1: true, .. }) => rt.println("name taken"),
        Err(Rejected { taken2: true, .. }) => rt.println("address taken"),
        // Neither is taken, so there was no memory.
        Err(_) => Err(AllocError.into()),
    }
}

/// Gives the symbol at this address another name.
fn answer_rename(
    rt: &(impl Print + AllocGlobal),
    symbols: &mut BiHashMap<Symbol>,
    address: u64,
    name: &str,
) -> io::Result<()> {
    let name = name.to_string(rt.alloc())?;
    rt.println(match rename(symbols, address, name) {
        Ok(_symbol) => "ok",
        Err(NotReplaced::Absent(_symbol)) => "none",
        Err(NotReplaced::Duplicate(_symbol)) => "name taken",
    })
}

/// Carries out a command, and prints the answer.
fn answer(
    rt: &(impl Print + AllocGlobal),
    symbols: &mut BiHashMap<Symbol>,
    command: Command,
) -> io::Result<()> {
    match command {
        Command::Define(name, address) => answer_define(rt, symbols, name, address),
        Command::Name(name) => show(rt, resolve(symbols, name)),
        Command::At(address) => show(rt, at_address(symbols, address)),
        Command::Undefine(name) => {
            let gone = undefine(symbols, name);
            show(rt, gone.as_ref())
        }
        Command::Rename(address, name) => answer_rename(rt, symbols, address, name),
        Command::Count => println!(rt; "{}", symbols.len()),
    }
}

/// Carries out the command of a line, and prints the answer.
fn answer_line(
    rt: &(impl Print + AllocGlobal),
    symbols: &mut BiHashMap<Symbol>,
    line: &[u8],
) -> io::Result<()> {
    let Ok(line) = str::from_utf8(line) else {
        return rt.println("bad line");
    };
    let words: Vec<&str> = line.split_whitespace().collect(rt.alloc())?;
    match parse(words.as_slice()) {
        Some(command) => answer(rt, symbols, command),
        None => rt.println("bad line"),
    }
}

/// Answers each line of the input.
fn answer_lines(
    rt: &(impl Print + Input + AllocGlobal),
    symbols: &mut BiHashMap<Symbol>,
) -> io::Result<()> {
    for line in rt.reader().split(rt.alloc(), b'\n') {
        answer_line(rt, symbols, line?.as_slice())?;
    }
    Ok(())
}

fn main(rt: HostRuntime) -> io::Result<()> {
    let mut symbols = BiHashMap::new(rt.alloc());
    answer_lines(&rt, &mut symbols)
}
