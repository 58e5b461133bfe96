//! The kind `tri`: which commands its words spell, and how they run.
//!
//! Made by tests/widths from crates/iddqd_text/src/two_keys.rt: change that file.
ghost use Rattle.std.specs.Prelude.{◌≡◌, IfOk, string_bytes};
ghost use Rattle.std.specs.Option.{option_map};
ghost use Rattle.iddqd_commands.specs.Values.{value_of};
ghost use Rattle.iddqd_text.specs.Commands.{single};
ghost use Rattle.iddqd_text.specs.Outputs.{GrowsByLine};
ghost use Rattle.iddqd_text.specs.Printed.{line_of};
ghost use Rattle.iddqd_text.specs.ThreeKeys.{command_of, item, items_of, numbers, single_of, spelled, Prints};

use crate::command::Command;
use crate::item::TriItem;
use crate::sink::LineSink;
use crate::words::Word;
use iddqd_commands_tri::{TriCommand, TriCommands, TriReply, TriSink};
use iddqd_tri::TriHashMap;
use std::alloc::{AllocError, Global};

impl Command for TriCommand<TriItem> {
    type Item = TriItem;

    ghost command_of = { command_of };

    ghost spelled = { spelled };

    ghost Prints = { Prints };

    fn command_of(
        alloc: Global,
        word: Word,
        numbers: &[u64],
    ) -> Result<Option<TriCommand<TriItem>>, AllocError> {
        if word != Word::AddAll {
            return Ok(single_of(word, numbers));
        }
        match items_of(alloc, numbers)? {
            Some(items) => Ok(Some(TriCommand::ExtendUnique(items))),
            None => Ok(None),
        }
    }

    fn run_commands(alloc: Global, commands: Vec<TriCommand<TriItem>>) -> Result<String, AllocError>
        ensures { IfOk result (λ output. Prints commands.items (string_bytes output)) }
    {
        let mut map = TriHashMap::<TriItem>::new(alloc);
        let mut sink = LineSink::new(alloc);
        map.run(commands, &mut sink)?;
        Ok(sink.into_text())
    }
}

/// Returns the command of a word with these numbers, unless it has a list of items.
fn single_of(word: Word, numbers: &[u64]) -> Option<TriCommand<TriItem>>
    ensures meaning { result ≡ single_of word numbers.now }
    ensures spelling { option_map spelled result ≡ option_map single result }
{
    // The numbers are matched first, and then the word: so fewer ways lead to the last arm, and the prover tries them
    // all.
    match (numbers, word) {
        ([key1, key2, key3, value], Word::New) => Some(TriCommand::InsertUnique(item(
            *key1, *key2, *key3, *value,
        ))),
        ([key], Word::Get1) => Some(TriCommand::Get1(*key)),
        ([key], Word::Get2) => Some(TriCommand::Get2(*key)),
        ([key], Word::Get3) => Some(TriCommand::Get3(*key)),
        ([key1, key2, key3], Word::Both) => Some(TriCommand::GetUnique(*key1, *key2, *key3)),
        ([key], Word::Del1) => Some(TriCommand::Remove1(*key)),
        ([key], Word::Del2) => Some(TriCommand::Remove2(*key)),
        ([key], Word::Del3) => Some(TriCommand::Remove3(*key)),
        ([key1, key2, key3], Word::DelBoth) => Some(TriCommand::RemoveUnique(*key1, *key2, *key3)),
        ([], Word::Len) => Some(TriCommand::Len),
        ([key1, key2, key3, value], Word::Put) => Some(TriCommand::InsertOverwrite(item(
            *key1, *key2, *key3, *value,
        ))),
        ([more], Word::Reserve) => Some(TriCommand::Reserve(*more as usize)),
        ([], Word::Fit) => Some(TriCommand::ShrinkToFit),
        ([], Word::Clear) => Some(TriCommand::Clear),
        ([], Word::List) => Some(TriCommand::Items),
        ([key, item1, item2, item3, value], Word::Replace1) => {
            Some(TriCommand::Replace1(*key, item(*item1, *item2, *item3, *value)))
        }
        ([key, value], Word::Set1) => Some(TriCommand::Set1(*key, *value)),
        ([key1, key2, key3, item1, item2, item3, value], Word::EntPut) => {
            Some(TriCommand::EntryInsert(*key1, *key2, *key3, item(*item1, *item2, *item3, *value)))
        }
        ([key1, key2, key3], Word::EntDel) => Some(TriCommand::EntryRemove(*key1, *key2, *key3)),
        ([key1, key2, key3, item1, item2, item3, value], Word::OrPut) => {
            Some(TriCommand::OrInsert(*key1, *key2, *key3, item(*item1, *item2, *item3, *value)))
        }
        _ => None,
    }
}

/// Makes the item of these numbers.
fn item(key1: u64, key2: u64, key3: u64, value: u64) -> TriItem
    ensures { result ≡ item key1 key2 key3 value }
{
    TriItem {
        key1,
        key2,
        key3,
        value,
    }
}

/// Returns the items that these numbers spell, one after the other, or `None` if numbers are left over.
fn items_of(alloc: Global, numbers: &[u64]) -> Result<Option<Vec<TriItem>>, AllocError>
    ensures { IfOk result (λ found. option_map (λ v. v.items) found ≡ items_of numbers.now) }
{
    let mut items = Vec::new(alloc);
    let mut rest = numbers;
    while let [key1, key2, key3, value, after @ ..] = rest {
        items.push(item(*key1, *key2, *key3, *value))?;
        rest = after;
    }
    if rest.is_empty() {
        Ok(Some(items))
    } else {
        Ok(None)
    }
}

impl TriSink<TriItem> for LineSink {
    type Fault = AllocError;

    ghost took = { λ old reply answer new.
        GrowsByLine (line_of numbers) (string_bytes old.text) reply answer (string_bytes new.text) };

    #[inline(always)]
    fn take(&mut self, reply: TriReply<'_, TriItem>) -> Result<(), AllocError>
        ensures { GrowsByLine (line_of numbers) (string_bytes self.old.text) (value_of reply.entry) result
            (string_bytes self.new.text) }
    {
        self.push_line(reply)
    }
}
