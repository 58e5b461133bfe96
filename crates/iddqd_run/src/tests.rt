//! Tests of runs in which one read, one write or one allocation fails.
mod refused;

use iddqd_text::from_read::FromRead;
use iddqd_text::outcome::{Kind, RunEnd, RunFault};
use iddqd_text::run::run_text;
use iddqd_text::to_write::ToWrite;
use std::alloc::Global;
use std::io::{self, ErrorKind, Read, Write};
use std::process::Abort;

/// Six lines for a kind of map, what they print, and the number of bytes of that.
type Six = (Kind, &'static str, &'static str, usize);

const SIX: [Six; 2] = [
    (
        Kind::Bi,
        "new 1 10 100\nnew 2 20 200\nget1 1\nnew 1 99 0\ndel1 1\nget2 10\n",
        "ok\nok\nitem (1 10 100)\ndup (1 10 100)\nitem (1 10 100)\nnone\n",
        58,
    ),
    (
        Kind::Tri,
        "new 1 10 100 7\nnew 2 20 200 8\nget1 1\nnew 1 99 900 0\ndel1 1\nget2 10\n",
        "ok\nok\nitem (1 10 100 7)\ndup (1 10 100 7)\nitem (1 10 100 7)\nnone\n",
        64,
    ),
];

/// A reader that gives at most `most` bytes at a time. If `fails_after` is set, one read fails, after that many
/// succeeded.
#[derive(Drop)]
struct PartReader<'t> {
    left: &'t [u8],
    most: usize,
    fails_after: Option<usize>,
    error: ErrorKind,
}

impl Read for PartReader<'_> {
    fn read(&mut self, buffer: &mut [u8]) -> io::Result<usize> {
        if is_due(&mut self.fails_after) {
            return Err(io::Error::from(self.error));
        }
        let n = self.left.len().min(buffer.len()).min(self.most);
        buffer[..n].copy_from_slice(&self.left[..n]);
        self.left = &self.left[n..];
        Ok(n)
    }
}

/// Counts down the calls, and returns whether this one is to fail, which happens once.
fn is_due(fails_after: &mut Option<usize>) -> bool {
    match *fails_after {
        None => false,
        Some(0) => {
            *fails_after = None;
            true
        }
        Some(calls) => {
            *fails_after = Some(calls - 1);
            false
        }
    }
}

/// A writer that takes at most `most` bytes at a time. If `fails_at` is set, one write fails, after that many bytes
/// were taken: with this error or, if there is none, by taking no byte.
#[derive(Drop)]
struct PartWriter {
    taken: Vec<u8>,
    most: usize,
    fails_at: Option<usize>,
    error: Option<ErrorKind>,
}

impl Write for PartWriter {
    fn write(&mut self, bytes: &[u8]) -> io::Result<usize> {
        let mut n = bytes.len().min(self.most);
        if let Some(at) = self.fails_at {
            n = n.min(at.saturating_sub(self.taken.len()));
            if n == 0 && !bytes.is_empty() {
                self.fails_at = None;
                return match self.error {
                    Some(error) => Err(io::Error::from(error)),
                    None => Ok(0),
                };
            }
        }
        self.taken.extend_from_slice(&bytes[..n])?;
        Ok(n)
    }

    fn flush(&mut self) -> io::Result<()> {
        Ok(())
    }
}

/// How a run ended, and what it had written by then.
type Ended = (Result<RunEnd, RunFault>, Vec<u8>);

/// Runs the lines that this reader gives.
fn read_by(alloc: Global, kind: Kind, reader: PartReader<'_>) -> Ended {
    let mut source = FromRead::new(reader);
    let mut out = ToWrite::new(Vec::new(alloc));
    let ended = run_text(alloc, kind, &mut source, &mut out);
    (ended, out.into_inner())
}

/// Runs a text, and writes to this writer.
fn taken_by(alloc: Global, kind: Kind, text: &str, writer: PartWriter) -> Ended {
    let mut source = FromRead::new(text.as_bytes());
    let mut out = ToWrite::new(writer);
    let ended = run_text(alloc, kind, &mut source, &mut out);
    (ended, out.into_inner().taken)
}

/// What a run has to end with and to have written, and the number of reads or bytes before the failure, for messages.
type Wanted<'t> = (Result<RunEnd, RunFault>, &'t [u8], usize);

fn check(rt: &impl Abort, kind: Kind, made: &Ended, wanted: Wanted<'_>) {
    let (ended, written, at) = wanted;
    assert_eq!(rt; made.0, ended, "{kind:?} at {at}");
    assert_eq!(rt; made.1.as_slice(), written, "{kind:?} at {at}");
}

/// Returns how many reads a text takes, at most `most` bytes at a time. The last read gives no byte.
fn reads_of(text: &str, most: usize) -> usize {
    if most == 1 {
        text.len().wrapping_add(1)
    } else {
        2
    }
}

/// Checks the runs in which one read fails, after `fails_after` reads.
fn check_read(rt: &impl Abort, alloc: Global, six: Six, most: usize, fails_after: usize) {
    let (kind, text, printed, _) = six;
    let wanted = if fails_after < reads_of(text, most) {
        (Err(RunFault::Read), "".as_bytes(), fails_after)
    } else {
        (Ok(RunEnd::Done), printed.as_bytes(), fails_after)
    };
    for error in [ErrorKind::Other, ErrorKind::Interrupted] {
        let reader = PartReader {
            left: text.as_bytes(),
            most,
            fails_after: Some(fails_after),
            error,
        };
        check(rt, kind, &read_by(alloc, kind, reader), wanted);
    }
}

#[test]
fn no_read_is_tried_again(rt: HostRuntime) {
    for six in SIX {
        for most in [1, usize::MAX] {
            for fails_after in 0..=reads_of(six.1, most) {
                check_read(&rt, rt.alloc(), six, most, fails_after);
            }
        }
    }
}

/// Returns the first `length` bytes, or all if there are fewer.
fn front_of(bytes: &[u8], length: usize) -> &[u8] {
    bytes.get(..length).unwrap_or(bytes)
}

/// Checks the runs in which one write fails, after `fails_at` bytes.
fn check_write(rt: &impl Abort, alloc: Global, six: Six, most: usize, fails_at: usize) {
    let (kind, text, printed, length) = six;
    let ended = if fails_at < length {
        Err(RunFault::Write)
    } else {
        Ok(RunEnd::Done)
    };
    let written = front_of(printed.as_bytes(), fails_at);
    for error in [None, Some(ErrorKind::Other), Some(ErrorKind::Interrupted)] {
        let writer = PartWriter {
            taken: Vec::new(alloc),
            most,
            fails_at: Some(fails_at),
            error,
        };
        let made = taken_by(alloc, kind, text, writer);
        check(rt, kind, &made, (ended, written, fails_at));
    }
}

#[test]
fn no_write_is_tried_again(rt: HostRuntime) {
    for six in SIX {
        let (_, _, printed, length) = six;
        assert_eq!(rt; printed.len(), length);
        for most in [1, usize::MAX] {
            for fails_at in 0..=length {
                check_write(&rt, rt.alloc(), six, most, fails_at);
            }
        }
    }
}
