//! What the arguments ask for, how a run ends, and which exit status and message follow.
ghost use Rattle.std.specs.Prelude.{◌≡◌, ◌≢◌, None, Ok, Err, IfOk, IfErr, map, string_bytes};
ghost use Rattle.std.specs.IoError.{error_kind};
ghost use Rattle.iddqd_text.specs.Outcome.{kind_of, status_of, message_of};

use crate::ends::EndFault;
use std::alloc::AllocError;
use std::io::{self, ErrorKind};

/// The kind of the map.
#[derive(Clone, Copy, Debug, PartialEq, Eq, Drop)]
pub enum Kind {
    /// The items have two keys.
    Bi,
    /// The items have three keys.
    Tri,
}

/// How a run without a fault ends.
#[derive(Clone, Copy, Debug, PartialEq, Eq, Drop)]
pub enum RunEnd {
    /// Each line was run.
    Done,
    /// No line was run, because the line with this number is malformed. The first line is line 1.
    BadLine(u64),
}

/// Why a run ended early.
#[derive(Clone, Copy, Debug, PartialEq, Eq, Drop)]
pub enum RunFault {
    /// A read failed.
    Read,
    /// A write failed.
    Write,
    /// Memory outside the map ran out.
    Memory,
}

impl From<AllocError> for RunFault {
    ghost use Rattle.iddqd_text.specs.declared.outcome.RunFault.TheVariants.{Memory};

    ghost from_gives = { λ _ e. e ≡ Memory };

    fn from(_: AllocError) -> RunFault {
        RunFault::Memory
    }
}

/// Returns the kind of map that the arguments ask for, given the result of reading them, or `None` if they ask for
/// none.
///
/// Arguments that cannot be read, for example one that is not UTF-8, ask for none. It fails only if there was no memory
/// to read them.
pub fn asked(read: io::Result<Vec<String>>) -> Result<Option<Kind>, RunFault>
    ensures read { IfOk read (λ arguments. result ≡ Ok (kind_of (map string_bytes arguments.items))) }
    ensures memory { IfErr read (λ error. error_kind error ≡ ErrorKind.OutOfMemory → result ≡ Err RunFault.Memory) }
    ensures unread { IfErr read (λ error. error_kind error ≢ ErrorKind.OutOfMemory → result ≡ Ok None) }
{
    match read {
        Ok(arguments) => Ok(kind_of(&arguments)),
        Err(error) => match error.kind() {
            ErrorKind::OutOfMemory => Err(RunFault::Memory),
            _ => Ok(None),
        },
    }
}

/// Returns the kind of map that the arguments after the program's name ask for: two keys for `bi` alone, three for
/// `tri` alone, and `None` for anything else.
pub fn kind_of(arguments: &[String]) -> Option<Kind>
    ensures { result ≡ kind_of (map string_bytes arguments.now) }
{
    match arguments {
        [word] => match word.as_bytes() {
            b"bi" => Some(Kind::Bi),
            b"tri" => Some(Kind::Tri),
            _ => None,
        },
        _ => None,
    }
}

/// Returns the exit status after a run, and the message for standard error, which may be empty.
pub fn ending(ended: &Result<RunEnd, RunFault>) -> (u8, &'static str)
    ensures status { result.0 ≡ status_of ended.now }
    ensures message { result.1.now ≡ message_of ended.now }
{
    match ended {
        Ok(RunEnd::Done) => (0, ""),
        Ok(RunEnd::BadLine(_)) => (2, ""),
        Err(RunFault::Read) => (1, "fault: read"),
        Err(RunFault::Write) => (1, "fault: write"),
        Err(RunFault::Memory) => (1, "fault: memory"),
    }
}
