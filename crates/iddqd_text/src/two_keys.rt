//! The kind `bi`: which commands its words spell, and how they run.
ghost use Rattle.std.specs.Prelude.{◌≡◌, IfOk, string_bytes};
ghost use Rattle.std.specs.Option.{option_map};
ghost use Rattle.iddqd_commands.specs.Values.{value_of};
ghost use Rattle.iddqd_text.specs.Commands.{single};
ghost use Rattle.iddqd_text.specs.Outputs.{GrowsByLine};
ghost use Rattle.iddqd_text.specs.Printed.{line_of};
ghost use Rattle.iddqd_text.specs.TwoKeys.{command_of, item, items_of, numbers, single_of, spelled, Prints};

use crate::command::Command;
use crate::item::BiItem;
use crate::sink::LineSink;
use crate::words::Word;
use iddqd_bi::BiHashMap;
use iddqd_commands_bi::{BiCommand, BiCommands, BiReply, BiSink};
use std::alloc::{AllocError, Global};

impl Command for BiCommand<BiItem> {
    type Item = BiItem;

    ghost command_of = { command_of };

    ghost spelled = { spelled };

    ghost Prints = { Prints };

    fn command_of(
        alloc: Global,
        word: Word,
        numbers: &[u64],
    ) -> Result<Option<BiCommand<BiItem>>, AllocError> {
        if word != Word::AddAll {
            return Ok(single_of(word, numbers));
        }
        match items_of(alloc, numbers)? {
            Some(items) => Ok(Some(BiCommand::ExtendUnique(items))),
            None => Ok(None),
        }
    }

    fn run_commands(alloc: Global, commands: Vec<BiCommand<BiItem>>) -> Result<String, AllocError>
        ensures { IfOk result (λ output. Prints commands.items (string_bytes output)) }
    {
        let mut map = BiHashMap::<BiItem>::new(alloc);
        let mut sink = LineSink::new(alloc);
        map.run(commands, &mut sink)?;
        Ok(sink.into_text())
    }
}

/// Returns the command of a word with these numbers, unless it has a list of items.
fn single_of(word: Word, numbers: &[u64]) -> Option<BiCommand<BiItem>>
    ensures meaning { result ≡ single_of word numbers.now }
    ensures spelling { option_map spelled result ≡ option_map single result }
{
    // The numbers are matched first, and then the word: so fewer ways lead to the last arm, and the prover tries them all.
    match (numbers, word) {
        ([key1, key2, value], Word::New) => Some(BiCommand::InsertUnique(item(
            *key1, *key2, *value,
        ))),
        ([key], Word::Get1) => Some(BiCommand::Get1(*key)),
        ([key], Word::Get2) => Some(BiCommand::Get2(*key)),
        ([key1, key2], Word::Both) => Some(BiCommand::GetUnique(*key1, *key2)),
        ([key], Word::Del1) => Some(BiCommand::Remove1(*key)),
        ([key], Word::Del2) => Some(BiCommand::Remove2(*key)),
        ([key1, key2], Word::DelBoth) => Some(BiCommand::RemoveUnique(*key1, *key2)),
        ([], Word::Len) => Some(BiCommand::Len),
        ([key1, key2, value], Word::Put) => Some(BiCommand::InsertOverwrite(item(
            *key1, *key2, *value,
        ))),
        ([more], Word::Reserve) => Some(BiCommand::Reserve(*more as usize)),
        ([], Word::Fit) => Some(BiCommand::ShrinkToFit),
        ([], Word::Clear) => Some(BiCommand::Clear),
        ([], Word::List) => Some(BiCommand::Items),
        ([key, item1, item2, value], Word::Replace1) => {
            Some(BiCommand::Replace1(*key, item(*item1, *item2, *value)))
        }
        ([key, value], Word::Set1) => Some(BiCommand::Set1(*key, *value)),
        ([key1, key2, item1, item2, value], Word::EntPut) => {
            Some(BiCommand::EntryInsert(*key1, *key2, item(*item1, *item2, *value)))
        }
        ([key1, key2], Word::EntDel) => Some(BiCommand::EntryRemove(*key1, *key2)),
        ([key1, key2, item1, item2, value], Word::OrPut) => {
            Some(BiCommand::OrInsert(*key1, *key2, item(*item1, *item2, *value)))
        }
        _ => None,
    }
}

/// Makes the item of these numbers.
fn item(key1: u64, key2: u64, value: u64) -> BiItem
    ensures { result ≡ item key1 key2 value }
{
    BiItem { key1, key2, value }
}

/// Returns the items that these numbers spell, one after the other, or `None` if numbers are left over.
fn items_of(alloc: Global, numbers: &[u64]) -> Result<Option<Vec<BiItem>>, AllocError>
    ensures { IfOk result (λ found. option_map (λ v. v.items) found ≡ items_of numbers.now) }
{
    let mut items = Vec::new(alloc);
    let mut rest = numbers;
    while let [key1, key2, value, after @ ..] = rest {
        items.push(item(*key1, *key2, *value))?;
        rest = after;
    }
    if rest.is_empty() {
        Ok(Some(items))
    } else {
        Ok(None)
    }
}

impl BiSink<BiItem> for LineSink {
    type Fault = AllocError;

    ghost took = { λ old reply answer new.
        GrowsByLine (line_of numbers) (string_bytes old.text) reply answer (string_bytes new.text) };

    #[inline(always)]
    fn take(&mut self, reply: BiReply<'_, BiItem>) -> Result<(), AllocError>
        ensures { GrowsByLine (line_of numbers) (string_bytes self.old.text) (value_of reply.entry) result
            (string_bytes self.new.text) }
    {
        self.push_line(reply)
    }
}
