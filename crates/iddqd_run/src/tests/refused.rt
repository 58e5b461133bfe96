//! Runs in which one allocation fails. `tests/memory/refuse_each` runs them once for each allocation.
//!
//! A test `allows_..` passes whichever allocation fails. It prints `met: the refusal` if it saw the failure, so it
//! never prints this if no allocation fails. It also prints what each run met, because each outcome has to come at some
//! allocation.
use iddqd_text::from_read::FromRead;
use iddqd_text::outcome::{Kind, RunEnd, RunFault};
use iddqd_text::run::run_text;
use iddqd_text::to_write::ToWrite;
use std::alloc::Global;
use std::io::{self, Write};
use std::process::Abort;

/// Seven lines for a kind of map.
#[derive(Clone, Copy)]
struct Seven {
    kind: Kind,
    text: &'static str,
    /// What they print if each item finds memory.
    granted: &'static str,
    /// What they print if the first item finds no memory.
    without_first: &'static str,
    /// What they print if the second item finds no memory.
    without_second: &'static str,
}

const TWO_KEYS: Seven = Seven {
    kind: Kind::Bi,
    text: "new 1 10 100\nnew 2 20 200\nget1 1\nnew 1 99 0\ndel1 1\nget2 10\nlist\n",
    granted: "ok\nok\nitem (1 10 100)\ndup (1 10 100)\nitem (1 10 100)\nnone\nlist (2 20 200)\n",
    without_first: "memory (1 10 100)\nok\nnone\nok\nitem (1 99 0)\nnone\nlist (2 20 200)\n",
    without_second: "ok\nmemory (2 20 200)\nitem (1 10 100)\ndup (1 10 100)\nitem (1 10 100)\nnone\nlist\n",
};

const THREE_KEYS: Seven = Seven {
    kind: Kind::Tri,
    text: "new 1 10 100 7\nnew 2 20 200 8\nget1 1\nnew 1 99 900 0\ndel1 1\nget2 10\nlist\n",
    granted: "ok\nok\nitem (1 10 100 7)\ndup (1 10 100 7)\nitem (1 10 100 7)\nnone\nlist (2 20 200 8)\n",
    without_first: "memory (1 10 100 7)\nok\nnone\nok\nitem (1 99 900 0)\nnone\nlist (2 20 200 8)\n",
    without_second: "ok\nmemory (2 20 200 8)\nitem (1 10 100 7)\ndup (1 10 100 7)\nitem (1 10 100 7)\nnone\nlist\n",
};

/// A writer that allocates nothing: an array, and the number of bytes that it took.
#[derive(Drop)]
struct ArrayWriter {
    bytes: [u8; 128],
    taken: usize,
}

impl Write for ArrayWriter {
    fn write(&mut self, bytes: &[u8]) -> io::Result<usize> {
        let Some(room) = self.bytes.get_mut(self.taken..) else {
            return Ok(0);
        };
        let n = bytes.len().min(room.len());
        room[..n].copy_from_slice(&bytes[..n]);
        self.taken += n;
        Ok(n)
    }

    fn flush(&mut self) -> io::Result<()> {
        Ok(())
    }
}

/// What a run met.
#[derive(Debug, Drop)]
enum Met {
    /// The run saw no failure. If std asks for more than it needs and that fails, it asks again for less.
    Nothing,
    /// Memory for the text ran out.
    Fault,
    /// Memory for an item ran out.
    MemoryReply,
}

/// Runs the lines, and returns how the run ended and the writer.
fn run_lines(alloc: Global, seven: Seven) -> (Result<RunEnd, RunFault>, ArrayWriter) {
    let mut source = FromRead::new(seven.text.as_bytes());
    let mut out = ToWrite::new(ArrayWriter {
        bytes: [0; 128],
        taken: 0,
    });
    let ended = run_text(alloc, seven.kind, &mut source, &mut out);
    (ended, out.into_inner())
}

/// Runs the lines, and asserts that the run ends in an allowed way and writes nothing else.
fn run(rt: &impl Abort, alloc: Global, seven: Seven) -> Met {
    let (ended, writer) = run_lines(alloc, seven);
    assert!(rt; writer.taken <= 128);
    let written = &writer.bytes[..writer.taken];
    if ended == Err(RunFault::Memory) {
        assert!(rt; written.is_empty());
        return Met::Fault;
    }
    assert_eq!(rt; ended, Ok(RunEnd::Done));
    if written == seven.granted.as_bytes() {
        return Met::Nothing;
    }
    assert!(rt;
        written == seven.without_first.as_bytes() || written == seven.without_second.as_bytes()
    );
    Met::MemoryReply
}

#[test]
fn allows_seven_lines(rt: HostRuntime) {
    for seven in [TWO_KEYS, THREE_KEYS] {
        let kind = seven.kind;
        let met = run(&rt, rt.alloc(), seven);
        let _ = println!(rt; "met: {kind:?} {met:?}");
        if !matches!(met, Met::Nothing) {
            let _ = println!(rt; "met: the refusal");
        }
    }
}
