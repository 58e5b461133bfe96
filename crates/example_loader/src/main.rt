//! Reads batches of records `ID,MAIL,YEAR`, each batch up to an empty line or to the end of the input, and answers each:
//!
//!     loaded N              all its N records were inserted
//!     line N: bad record    what begins at its line N is no record, and nothing was inserted
//!     line N: KEY taken     a record that was loaded earlier has that key of the one at its line N; nothing was inserted
//!     line N: KEY taken, see line M
//!                           the record at its line M has that key, and is the first of the batch that does
//!     line N: no memory     there was no memory for the record at its line N, and nothing was inserted
//!
//! KEY is `id`, `mail`, or `id and mail`. A record is a line, or more than one if its mail address is in quotes and has a line end. A line that has more or fewer fields or
//! is not UTF-8 is no record. At the end it prints how many records there are.
#![tactic(auto)]

mod loader;
mod text;

use crate::loader::Record;
use crate::text::{Duplicate, Problem, load_text};
use iddqd_bi::BiHashMap;
use std::io;
use std::io::BufRead;

/// Loads the batch of a text, and prints the outcome.
fn answer(
    rt: &(impl Print + AllocGlobal),
    records: &mut BiHashMap<Record>,
    text: &[u8],
) -> io::Result<()> {
    match load_text(rt.alloc(), records, text) {
        Ok(count) => println!(rt; "loaded {count}"),
        Err(fault) => {
            let line = fault.line;
            match fault.problem {
                Problem::Bad => println!(rt; "line {line}: bad record"),
                Problem::Duplicate(duplicate) => show_duplicate(rt, line, duplicate),
                Problem::Memory => println!(rt; "line {line}: no memory"),
            }
        }
    }
}

/// Prints which keys of a record are taken, and the line of the first record of the batch that has one.
fn show_duplicate(rt: &impl Print, line: u64, duplicate: Duplicate) -> io::Result<()> {
    let key = match (duplicate.id, duplicate.mail) {
        (true, true) => "id and mail",
        (true, false) => "id",
        _ => "mail",
    };
    match duplicate.line {
        Some(first) => println!(rt; "line {line}: {key} taken, see line {first}"),
        None => println!(rt; "line {line}: {key} taken"),
    }
}

/// Adds a line to the text of a batch. An empty line ends the batch.
fn take_line(
    rt: &(impl Print + AllocGlobal),
    records: &mut BiHashMap<Record>,
    text: &mut Vec<u8>,
    line: &[u8],
) -> io::Result<()> {
    if !line.is_empty() {
        text.extend_from_slice(line)?;
        text.push(b'\n')?;
    } else if !text.is_empty() {
        answer(rt, records, text.as_slice())?;
        text.clear();
    }
    Ok(())
}

/// Answers each batch of the input, and prints how many records there are at its end.
fn answer_lines(
    rt: &(impl Print + Input + AllocGlobal),
    records: &mut BiHashMap<Record>,
    text: &mut Vec<u8>,
) -> io::Result<()> {
    for line in rt.reader().split(rt.alloc(), b'\n') {
        let line = line?;
        let line = line.strip_suffix(b"\r").unwrap_or(line.as_slice());
        take_line(rt, records, text, line)?;
    }
    if !text.is_empty() {
        answer(rt, records, text.as_slice())?;
    }
    println!(rt; "{} records", records.len())
}

fn main(rt: HostRuntime) -> io::Result<()> {
    let mut records = BiHashMap::new(rt.alloc());
    let mut text = Vec::new(rt.alloc());
    answer_lines(&rt, &mut records, &mut text)
}
