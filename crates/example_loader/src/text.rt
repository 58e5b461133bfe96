//! Batches as texts of comma-separated values.
ghost use Rattle.std.specs.Prelude.{◌≡◌, ◌++◌, List, length, IsPermutation, IfOk, OnErr};
ghost use Rattle.iddqd_bi.specs.Map.{bag};

use crate::loader::{Record, Rejected, load};
use csv::{ByteRecord, DeserializeErrorKind, Error, ErrorKind, ReaderBuilder};
use iddqd_bi::BiHashMap;
use std::alloc::Global;

/// A record has so many fields: its number, its mail address and its year.
const FIELDS: usize = 3;

/// Why a text was not loaded: what is wrong with the record that begins at which of its lines, counted from 1.
#[derive(Clone, Copy)]
pub struct Fault {
    pub line: u64,
    pub problem: Problem,
}

/// What is wrong with a record.
#[derive(Clone, Copy)]
pub enum Problem {
    /// It has not three fields, or one of them is not of its type, or not UTF-8.
    Bad,
    /// A record before it, in the text or loaded earlier, has its number or its mail address.
    Duplicate(Duplicate),
    /// There is no memory for the record.
    Memory,
}

/// Which keys of a record are taken, and the line of the first record of its text that has one of them. If there is no
/// such line, a record that was loaded earlier has it.
#[derive(Clone, Copy)]
pub struct Duplicate {
    pub id: bool,
    pub mail: bool,
    pub line: Option<u64>,
}

/// Returns what is wrong with a row that was not read as a record.
fn problem_of(error: &Error) -> Problem {
    match error.kind() {
        ErrorKind::OutOfMemory => Problem::Memory,
        ErrorKind::Deserialize { pos: _, err } => match err.kind() {
            DeserializeErrorKind::OutOfMemory => Problem::Memory,
            _ => Problem::Bad,
        },
        _ => Problem::Bad,
    }
}

/// Returns the record of a row. `csv` alone would take a row with further fields, and leave these out.
fn record_of(alloc: Global, row: &ByteRecord) -> Result<Record, Problem> {
    if row.len() != FIELDS {
        return Err(Problem::Bad);
    }
    row.deserialize::<Record>(alloc, None)
        .map_err(|error| problem_of(&error))
}

/// The records of a text, and the line at which each begins. A text in quotes may go on in the next line, so the lines
/// are not counted by the records.
#[derive(Drop)]
struct Batch {
    records: Vec<Record>,
    lines: Vec<u64>,
}

/// Returns the records of a text.
fn batch_of(alloc: Global, text: &[u8]) -> Result<Batch, Fault>
    ensures { IfOk result (λ batch. length batch.lines.items ≡ length batch.records.items) }
{
    let mut records = Vec::new(alloc);
    let mut lines = Vec::new(alloc);
    let mut reader = ReaderBuilder::new()
        .has_headers(false)
        .flexible(true)
        .from_reader(alloc, text);
    let mut row = ByteRecord::new(alloc);
    for _ in 0..u64::MAX {
        let read = reader.read_byte_record(&mut row);
        let line = row.position().unwrap_or(reader.position()).line();
        let at = |problem: Problem| Fault { line, problem };
        if !read.map_err(|error| at(problem_of(&error)))? {
            break;
        }
        let record = record_of(alloc, &row).map_err(at)?;
        records.push(record).map_err(|_| at(Problem::Memory))?;
        lines.push(line).map_err(|_| at(Problem::Memory))?;
    }
    Ok(Batch { records, lines })
}

/// Returns what is wrong with a record that was rejected. The lines are those of the records.
fn problem_with(rejected: &Rejected, lines: &[u64]) -> Problem {
    if !rejected.id_taken && !rejected.mail_taken {
        return Problem::Memory;
    }
    Problem::Duplicate(Duplicate {
        id: rejected.id_taken,
        mail: rejected.mail_taken,
        line: match rejected.earlier {
            Some(at) => lines.get(at).copied(),
            None => None,
        },
    })
}

/// Loads the records of a text, and returns how many they are. If one of them cannot be inserted, none is.
pub fn load_text(
    alloc: Global,
    records: &mut BiHashMap<Record>,
    text: &[u8],
) -> Result<usize, Fault>
    ensures all { IfOk result (λ count. (batch : List Record) × (length batch ≡ count)
        × IsPermutation (bag records.new) (batch ++ bag records.old)) }
    ensures none { OnErr result (IsPermutation (bag records.new) (bag records.old)) }
{
    let batch = batch_of(alloc, text)?;
    let lines = batch.lines;
    let count = lines.len();
    match load(records, batch.records) {
        Ok(()) => Ok(count),
        Err(rejected) => Err(Fault {
            line: lines[rejected.index],
            problem: problem_with(&rejected, lines.as_slice()),
        }),
    }
}
