//! Runs a text of commands on a new map.
ghost use Rattle.std.specs.Prelude.{◌≡◌, ◌≢◌, Err, IfOk, IfSome, OnErr, OnOk, string_bytes};
ghost use Rattle.std.specs.Io.KnownBytes.{IsAtEnd, Keeps};
ghost use Rattle.iddqd_text.specs.Faults.{reads_failed, writes_failed};
ghost use Rattle.iddqd_text.specs.RunText.{IsAnswer, IsOutcome, Writes, WritesFront};

use crate::command::Command;
use crate::ends::{Out, Source};
use crate::item::{BiItem, TriItem};
use crate::outcome::{Kind, RunEnd, RunFault};
use crate::parse::{Parsed, parse};
use crate::print::bad_line_message;
use crate::read::read_all;
use crate::write::write_all;
use iddqd_commands_bi::BiCommand;
use iddqd_commands_tri::TriCommand;
use std::alloc::{AllocError, Global};

/// Reads the source to its end, parses all lines, runs them on a new map of this kind, and writes the line of each
/// reply.
///
/// If a line is malformed, it runs no line, and writes only a message that names the first such line.
///
/// It fails with `Read` or `Write` at the first read or write that fails, and tries none again. The input, the
/// commands and the output are kept in memory. If memory for these runs out, for example for an input that never ends,
/// it fails with `Memory`. If the map runs out of memory, that is a reply and no fault.
pub fn run_text<R: Source, W: Out>(
    alloc: Global,
    kind: Kind,
    source: &mut R,
    out: &mut W,
) -> Result<RunEnd, RunFault>
    // What is written: all of it; a prefix, if a write fails; nothing, at any other fault.
    ensures ended { IfOk result (λ end. IfSome (R.left source.old) (λ input.
        Writes kind input end (W.held out.old) (W.held out.new))) }
    ensures front_at_write { result ≡ Err RunFault.Write → IfSome (R.left source.old) (λ input.
        WritesFront kind input (W.held out.old) (W.held out.new)) }
    ensures nothing_before { OnErr result (result ≢ Err RunFault.Write → Keeps (W.held out.old) (W.held out.new)) }
    // What is read, and which reads and writes failed.
    ensures to_the_end { OnOk result (IsAtEnd (R.left source.new)) }
    ensures reads_failed { R.failures source.new ≡ reads_failed result (R.failures source.old) }
    ensures writes_failed { W.failures out.new ≡ writes_failed result (W.failures out.old) }
{
    let input = read_all(alloc, source)?;
    let (end, output) = answer(alloc, kind, &input)?;
    match write_all(out, output.as_bytes()) {
        Ok(()) => Ok(end),
        Err(_) => Err(RunFault::Write),
    }
}

/// Returns how the run of a text ends, and what it prints.
fn answer(alloc: Global, kind: Kind, input: &[u8]) -> Result<(RunEnd, String), AllocError>
    ensures { IfOk result (λ answer. IsOutcome kind input.now answer.0 (string_bytes answer.1)) }
{
    match kind {
        Kind::Bi => answer_of::<BiCommand<BiItem>>(alloc, input),
        Kind::Tri => answer_of::<TriCommand<TriItem>>(alloc, input),
    }
}

/// Returns how the run of a text ends, and what it prints, for the commands of one kind.
fn answer_of<C: Command>(alloc: Global, input: &[u8]) -> Result<(RunEnd, String), AllocError>
    ensures { IfOk result (λ answer.
        IsAnswer C.command_of C.spelled C.Prints input.now answer.0 (string_bytes answer.1)) }
{
    match parse::<C>(alloc, input)? {
        Parsed::Commands(commands) => {
            let output = C::run_commands(alloc, commands)?;
            Ok((RunEnd::Done, output))
        }
        Parsed::BadLine(number) => {
            let message = bad_line_message(alloc, number)?;
            Ok((RunEnd::BadLine(number), message))
        }
    }
}
