//! Collects the replies of a run as lines.
use crate::item::Numbers;
use crate::print::line_of;
use iddqd_commands::MapReply;
use iddqd_store::ShortList;
use std::alloc::{AllocError, Global};

/// Keeps the line of each reply, one after the other.
#[derive(Drop)]
pub struct LineSink {
    alloc: Global,
    // A buffer for one line. If memory runs out in the middle of the line, the text stays as it is.
    line: String,
    pub text: String,
}

impl LineSink {
    ghost use Rattle.std.specs.Prelude.{◌≡◌, [], string_bytes};
    ghost use Rattle.iddqd_commands.specs.Values.{value_by};
    ghost use Rattle.iddqd_text.specs.Outputs.{GrowsByLine};
    ghost use Rattle.iddqd_text.specs.Printed.{line_of};

    /// Makes a sink without lines. It allocates nothing.
    pub fn new(alloc: Global) -> Self
        ensures { string_bytes result.text ≡ [] }
    {
        LineSink {
            alloc,
            line: String::new(alloc),
            text: String::new(alloc),
        }
    }

    /// Returns the lines.
    pub fn into_text(self) -> String
        ensures { result ≡ self.text }
    {
        let LineSink { text, .. } = self;
        text
    }

    /// Appends the line of a reply. If memory runs out, the lines stay as they are.
    #[inline(always)]
    pub fn push_line<
        'm,
        T: Numbers + Copy + Drop,
        L: ShortList<Item = &'m T> + Drop,
        G: ShortList<Item = T> + Drop,
    >(&mut self, reply: MapReply<'m, T, u64, L, G>) -> Result<(), AllocError>
        ensures { GrowsByLine (line_of T.numbers) (string_bytes self.old.text)
            (value_by L.list G.list reply.entry) result (string_bytes self.new.text) }
    {
        match reply {
            // These lines do not need the buffer, since one word is appended whole or not at all. The function is
            // inlined, so a caller that knows its reply appends the word, and does not match on the reply again.
            MapReply::Done => self.text.push_str("ok\n"),
            MapReply::Found(None) => self.text.push_str("none\n"),
            MapReply::AbsentData(_) => self.text.push_str("none\n"),
            MapReply::Kept => self.text.push_str("kept\n"),
            reply => self.push_by_buffer(reply),
        }
    }

    // Appends the line of any reply, which is first written to the buffer.
    #[inline(never)]
    fn push_by_buffer<
        'm,
        T: Numbers + Copy + Drop,
        L: ShortList<Item = &'m T> + Drop,
        G: ShortList<Item = T> + Drop,
    >(&mut self, reply: MapReply<'m, T, u64, L, G>) -> Result<(), AllocError>
        ensures { GrowsByLine (line_of T.numbers) (string_bytes self.old.text)
            (value_by L.list G.list reply.entry) result (string_bytes self.new.text) }
    {
        line_of(self.alloc, reply, &mut self.line)?;
        self.text.push_str(self.line.as_str())
    }
}
