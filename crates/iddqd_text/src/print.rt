//! The lines that the program prints.
ghost use Rattle.std.specs.Prelude.{◌≡◌, ◌++◌, List, [], IfOk, OnOk, codes, map, string_bytes};
ghost use Rattle.iddqd_commands.specs.Reply.{extend_refused};
ghost use Rattle.iddqd_commands.specs.Values.{value_by};
ghost use Rattle.iddqd_text.specs.Printed.{printed, items_text, found_line, line_of, bad_line_message};
ghost use Rattle.iddqd_text.specs.Sorted.{by_first_key};

use crate::item::Numbers;
use iddqd_commands::MapReply;
use iddqd_store::{InsertReason, Iter, ShortList};
use std::alloc::{AllocError, Global};

// A reply whose line is more than a word has a function of its own, which is never inlined. A function clears the
// frame of all its values when it begins, so if these were inlined, each reply would pay for the values of all
// others.

/// Replaces a text by the line of a reply. It fails only for lack of memory.
#[inline(never)]
pub fn line_of<
    'm,
    T: Numbers + Copy + Drop,
    L: ShortList<Item = &'m T> + Drop,
    G: ShortList<Item = T> + Drop,
>(alloc: Global, reply: MapReply<'m, T, u64, L, G>, line: &mut String) -> Result<(), AllocError>
    ensures { OnOk result (string_bytes line.new ≡ line_of T.numbers (value_by L.list G.list reply.entry)) }
{
    line.clear();
    match reply {
        MapReply::Done => line.push_str("ok\n"),
        MapReply::Duplicate(refused) => {
            let (_, duplicates) = refused.into_parts();
            duplicates_line(line, duplicates)
        }
        MapReply::Displaced(displaced) => displaced_line(line, displaced),
        MapReply::Found(None) => line.push_str("none\n"),
        MapReply::Found(Some(item)) => item_line(line, "item ", item),
        MapReply::Taken(None) => line.push_str("none\n"),
        MapReply::Taken(Some(item)) => item_line(line, "item ", &item),
        MapReply::Present(true) => line.push_str("yes\n"),
        MapReply::Present(false) => line.push_str("no\n"),
        MapReply::Memory(item) => item_line(line, "memory ", &item),
        MapReply::Refused => line.push_str("memory\n"),
        MapReply::Length(count) => write!(line, "len {count}\n"),
        MapReply::Items(items) => list_line(alloc, items, line),
        MapReply::Kept => line.push_str("kept\n"),
        MapReply::Key1(item) => item_line(line, "key1 ", &item),
        MapReply::Key2(item) => item_line(line, "key2 ", &item),
        MapReply::Key3(item) => item_line(line, "key3 ", &item),
        MapReply::Absent(item) => item_line(line, "absent ", &item),
        MapReply::AbsentData(_) => line.push_str("none\n"),
        MapReply::ExtendRefused(_, item, reason) => refused_list_line(line, &item, reason),
    }
}

/// Appends a word and an item to an empty text, as a line.
#[inline(never)]
fn item_line<T: Numbers>(line: &mut String, word: &str, item: &T) -> Result<(), AllocError>
    requires { string_bytes line.old ≡ [] }
    ensures { OnOk result (string_bytes line.new ≡ word.now ++ printed (T.numbers item.now) ++ codes "\n") }
{
    write!(line, "{word}{item}\n")
}

/// Appends the line of a duplicate to an empty text: the items that conflict with the new one.
#[inline(never)]
fn duplicates_line<'m, T: Numbers + 'm, L: ShortList<Item = &'m T> + Drop>(
    line: &mut String,
    duplicates: L,
) -> Result<(), AllocError>
    requires { string_bytes line.old ≡ [] }
    ensures { OnOk result (string_bytes line.new ≡
        codes "dup" ++ items_text T.numbers (map (λ item. item.now) (L.list duplicates)) ++ codes "\n") }
{
    line.push_str("dup")?;
    let mut left = duplicates;
    loop {
        match left.pop_front() {
            Some(item) => push_item(line, item)?,
            None => {
                line.push_str("\n")?;
                return Ok(());
            }
        }
    }
}

/// Appends the line of an overwrite to an empty text: the items that it removed.
#[inline(never)]
fn displaced_line<T: Numbers + Drop, G: ShortList<Item = T> + Drop>(
    line: &mut String,
    displaced: G,
) -> Result<(), AllocError>
    requires { string_bytes line.old ≡ [] }
    ensures { OnOk result (string_bytes line.new ≡
        codes "out" ++ items_text T.numbers (G.list displaced) ++ codes "\n") }
{
    line.push_str("out")?;
    let mut left = displaced;
    loop {
        match left.pop_front() {
            Some(item) => push_item(line, &item)?,
            None => {
                line.push_str("\n")?;
                return Ok(());
            }
        }
    }
}

/// Appends the line of a list of which no item was inserted to an empty text: the item at which the call failed.
#[inline(never)]
fn refused_list_line<T: Numbers>(
    line: &mut String,
    item: &T,
    reason: InsertReason,
) -> Result<(), AllocError>
    requires { string_bytes line.old ≡ [] }
    ensures { (before : List T) → OnOk result (string_bytes line.new ≡
        line_of T.numbers (extend_refused reason before item.now)) }
{
    match reason {
        InsertReason::Duplicate => item_line(line, "conflict ", item),
        InsertReason::Memory => item_line(line, "memory ", item),
    }
}

/// Appends the line of all items to an empty text, sorted by first key. It allocates memory for the items too.
#[inline(never)]
fn list_line<T: Numbers + Copy + Drop>(
    alloc: Global,
    items: Iter<'_, T>,
    line: &mut String,
) -> Result<(), AllocError>
    requires { string_bytes line.old ≡ [] }
    ensures { OnOk result (string_bytes line.new ≡
        codes "list" ++ items_text T.numbers (by_first_key T.numbers items.entry) ++ codes "\n") }
{
    let sorted = by_first_key(alloc, items)?;
    line.push_str("list")?;
    for item in &sorted {
        push_item(line, item)?;
    }
    line.push_str("\n")?;
    Ok(())
}

/// Returns the items, sorted by first key.
fn by_first_key<T: Numbers + Copy + Drop>(
    alloc: Global,
    items: Iter<'_, T>,
) -> Result<Vec<T>, AllocError>
    ensures { IfOk result (λ sorted. sorted.items ≡ by_first_key T.numbers items.entry) }
{
    let mut sorted: Vec<T> = items.copied().collect(alloc)?;
    sorted.sort_by_key(|item| item.first_key())?;
    Ok(sorted)
}

/// Appends a space and the item to a text.
fn push_item<T: Numbers>(line: &mut String, item: &T) -> Result<(), AllocError>
    ensures { OnOk result (string_bytes line.new ≡
        string_bytes line.old ++ codes " " ++ printed (T.numbers item.now)) }
{
    write!(line, " {item}")
}

/// Returns the message that is printed in place of all lines if this line is malformed.
pub fn bad_line_message(alloc: Global, number: u64) -> Result<String, AllocError>
    ensures { IfOk result (λ message. string_bytes message ≡ bad_line_message number) }
{
    format!(in alloc; "line {number}: bad command\n")
}
