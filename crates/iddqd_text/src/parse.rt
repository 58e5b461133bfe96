//! Reads the commands that a text spells.
ghost use Rattle.std.specs.Prelude.{◌≡◌, ◌≤◌, ◌==◌, IfOk, None, Some, drop, if◌then◌else◌, length, not};
ghost use Rattle.std.specs.List.{prefix_len, slice_split};
ghost use Rattle.std.specs.Option.{option_map};
ghost use Rattle.iddqd_text.specs.Commands.{numbers_of, command_of_line};
ghost use Rattle.iddqd_text.specs.Parsed.{IsParse};

use crate::command::Command;
use crate::lines::cut;
use crate::numbers::first_number;
use crate::words::word_of;
use std::alloc::{AllocError, Global};

/// What a text spells.
#[derive(Drop)]
pub enum Parsed<C> {
    /// Each line spells a command, and these are the commands.
    Commands(Vec<C>),
    /// The line with this number is the first that spells no command. The first line is line 1.
    BadLine(u64),
}

/// Returns the commands that the lines of a text spell, or the number of the first malformed line.
///
/// It allocates memory for the commands, and for the numbers of one line at a time.
#[tactic(auto, using(crate::proofs::Parsing::spells_more, crate::proofs::Parsing::spells_all))]
pub fn parse<C: Command>(alloc: Global, text: &[u8]) -> Result<Parsed<C>, AllocError>
    ensures { IfOk result (IsParse C.command_of C.spelled text.now) }
{
    let mut commands = Vec::new(alloc);
    let mut numbers = Vec::new(alloc);
    let mut rest = text;
    let mut number = 0u64;
    while !rest.is_empty() {
        let (line, after) = cut(rest);
        number += 1;
        match command_of_line(alloc, line, &mut numbers)? {
            Some(command) => {
                // The capacity is reserved first. `push` returns the command if it fails, and that result would pass through
                // memory for every line.
                commands.reserve(1)?;
                commands.push_reserved(command);
            }
            None => return Ok(Parsed::BadLine(number)),
        }
        rest = after;
    }
    Ok(Parsed::Commands(commands))
}

/// Returns the command that a line spells, if it spells one. The list is a buffer for the line's numbers.
#[tactic(auto, using(crate::proofs::Fields::without_word, crate::proofs::Fields::with_word))]
pub fn command_of_line<C: Command>(
    alloc: Global,
    line: &[u8],
    numbers: &mut Vec<u64>,
) -> Result<Option<C>, AllocError>
    ensures { IfOk result (λ found. option_map C.spelled found ≡ command_of_line C.command_of line.now) }
{
    let at = end_of_field(line);
    let Some(word) = word_of(&line[..at]) else {
        return Ok(None);
    };
    if !read_numbers(&line[at..], numbers)? {
        return Ok(None);
    }
    C::command_of(alloc, word, numbers.as_slice())
}

/// Replaces the list by the numbers of the fields after the first one, and returns whether each of these fields spells
/// a number.
#[tactic(auto, using(crate::proofs::Fields::numbers_first, crate::proofs::Fields::numbers_more, crate::proofs::Fields::numbers_none))]
fn read_numbers(text: &[u8], numbers: &mut Vec<u64>) -> Result<bool, AllocError>
    ensures { IfOk result (λ all. numbers_of (drop 1 (slice_split (λ b. b == 32) text.now)) ≡
        (if all then Some numbers.new.items else None)) }
{
    numbers.clear();
    let mut rest = &text[end_of_field(text)..];
    while let [_, fields @ ..] = rest {
        let Some((n, after)) = first_number(fields) else {
            return Ok(false);
        };
        numbers.reserve(1)?;
        numbers.push_reserved(n);
        rest = after;
    }
    Ok(true)
}

/// Returns the place of the first space, or the length if there is none.
fn end_of_field(fields: &[u8]) -> usize
    ensures place { result ≡ prefix_len (λ b. not (b == 32)) fields.now }
    ensures within { result ≤ length fields.now }
{
    fields.iter().take_while(|b| **b != b' ').count()
}
