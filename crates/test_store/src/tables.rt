//! Worked rows of tables, whose places were found by hand. The contract of each call says how many cells it probes;
//! this is not tested here.
ghost use Rattle.std.specs.Prelude.{◌≡◌, ◌&&◌, ◌==◌, refl, ⊤};
ghost use Rattle.std.proofs.Common.{◌∙◌, true, sym, ap₂};

use iddqd_store::{IndexTable, ItemIndex, Matcher, Meter, TryReserveError, pairs_for};
use std::alloc::{AllocError, Global};
use std::test::Fail;

/// A matcher that accepts one index, or none, and counts its questions.
#[derive(Drop)]
struct Only {
    slot: ItemIndex,
    yes: bool,
    questions: usize,
}

impl Matcher for Only {
    ghost accepts = { λ m slot. m.yes && (slot == m.slot) };

    ghost asked = { λ m. m.questions };

    ghost MayAsk = { λ _ _. ⊤ };

    ghost IsKept = { λ m n. (m.slot ≡ n.slot) × (m.yes ≡ n.yes) };

    ghost accepts_kept = { λ m n slot k. ap₂ (λ y i. y && (slot == i)) (sym k.1) (sym k.0) };

    ghost kept_refl = { λ _. (refl, refl) };

    ghost kept_trans = { λ _ _ _ k l. (k.0 ∙ l.0, k.1 ∙ l.1) };

    fn matches(&mut self, slot: ItemIndex) -> bool {
        self.questions = self.questions.saturating_add(1);
        self.yes && slot == self.slot
    }
}

/// A hash and an index. The index is written as a letter, whose byte is its number.
type Pair = (u64, u8);

/// Makes a matcher that accepts this index if `yes`, otherwise none.
fn asking_for(slot: u8, yes: bool) -> Only {
    Only {
        slot: ItemIndex::new(slot as usize),
        yes,
        questions: 0,
    }
}

/// Inserts pairs in order, as long as there is spare capacity.
fn enter(table: &mut IndexTable, pairs: &[Pair]) {
    for (hash, slot) in pairs {
        if table.len() < table.capacity() {
            table.insert_reserved(*hash, ItemIndex::new(*slot as usize), &mut Meter::new());
        }
    }
}

/// Removes pairs.
fn take_out(table: &mut IndexTable, pairs: &[Pair]) {
    for pair in pairs {
        let (hash, slot) = *pair;
        if let Some(slot) = table.find(hash, &mut asking_for(slot, true), &mut Meter::new()) {
            table.remove(hash, slot, &mut Meter::new());
        }
    }
}

/// Returns the letter in each cell, and a point for an empty cell.
fn picture(alloc: Global, table: &IndexTable) -> Result<Vec<u8>, AllocError> {
    let mut letters = Vec::new(alloc);
    for at in 0..table.cells() {
        let pair = table.cell_at(at, &mut Meter::new());
        let letter = pair.map_or(b'.', |pair| u8::try_from(pair.1.number()).unwrap_or(0));
        letters.push(letter)?;
    }
    Ok(letters)
}

const SEVEN: &[Pair] = &[
    (0, b'a'),
    (0, b'b'),
    (2, b'c'),
    (3, b'd'),
    (4, b'e'),
    (5, b'f'),
    (6, b'g'),
];

/// A worked row: pairs that are inserted first and removed at the end, the pairs inserted between, and how many more
/// are then reserved; and what the cells then hold.
type Place = (&'static [Pair], &'static [Pair], usize, &'static str);

const PLACES: &[Place] = &[
    (
        &[],
        &[(6, b'a'), (6, b'b'), (7, b'c'), (0, b'd')],
        0,
        "cd....ab",
    ),
    (
        &[(6, b'a')],
        &[(6, b'b'), (7, b'c'), (0, b'd')],
        0,
        "d.....bc",
    ),
    (&[(6, b'a')], &[(7, b'b'), (6, b'c')], 0, "......cb"),
    (&[], &[(1, b'a'), (9, b'b')], 0, ".ab....."),
    (&[], &[(1, b'a'), (9, b'b')], 10, ".a.......b......"),
    (&[], SEVEN, 0, "abcdefg."),
    (&[], SEVEN, 1, "abcdefg........."),
    // Whatever the order of three inserts, they occupy the same cells. They still occupy these after a pair that was
    // inserted before them was removed.
    (&[], &[(6, b'a'), (7, b'b'), (6, b'c')], 0, "c.....ab"),
    (&[], &[(6, b'a'), (6, b'c'), (7, b'b')], 0, "b.....ac"),
    (&[], &[(7, b'b'), (6, b'a'), (6, b'c')], 0, "c.....ab"),
    (&[], &[(7, b'b'), (6, b'c'), (6, b'a')], 0, "a.....cb"),
    (&[], &[(6, b'c'), (6, b'a'), (7, b'b')], 0, "b.....ca"),
    (&[], &[(6, b'c'), (7, b'b'), (6, b'a')], 0, "a.....cb"),
    (
        &[(6, b'd')],
        &[(6, b'a'), (7, b'b'), (6, b'c')],
        0,
        "c.....ab",
    ),
    (
        &[(6, b'd')],
        &[(6, b'a'), (6, b'c'), (7, b'b')],
        0,
        "b.....ac",
    ),
    (
        &[(6, b'd')],
        &[(7, b'b'), (6, b'a'), (6, b'c')],
        0,
        "c.....ab",
    ),
    (
        &[(6, b'd')],
        &[(7, b'b'), (6, b'c'), (6, b'a')],
        0,
        "a.....cb",
    ),
    (
        &[(6, b'd')],
        &[(6, b'c'), (6, b'a'), (7, b'b')],
        0,
        "b.....ca",
    ),
    (
        &[(6, b'd')],
        &[(6, b'c'), (7, b'b'), (6, b'a')],
        0,
        "a.....cb",
    ),
    (&[(6, b'a'), (6, b'b')], &[], 0, "........"),
];

/// Makes a table: inserts `gone`, then `pairs`, removes `gone` again, and reserves capacity for `more`.
fn entered(
    alloc: Global,
    gone: &[Pair],
    pairs: &[Pair],
    more: usize,
) -> Result<IndexTable, TryReserveError> {
    let mut table = IndexTable::with_capacity(alloc, 7)?;
    enter(&mut table, gone);
    enter(&mut table, pairs);
    take_out(&mut table, gone);
    table.try_reserve(more, &mut Meter::new())?;
    Ok(table)
}

/// Returns whether a table and its clone have this picture.
fn stands(alloc: Global, table: &IndexTable, wanted: &[u8]) -> Result<bool, Fail> {
    let copy = picture(alloc, &table.clone()?)?;
    Ok(copy.as_slice() == wanted && picture(alloc, table)?.as_slice() == wanted)
}

/// Returns the picture of the first row whose table has another one, or `None`.
fn first_wrong(alloc: Global, places: &[Place]) -> Result<Option<&'static str>, Fail> {
    for (gone, pairs, more, wanted) in places {
        let table = entered(alloc, gone, pairs, *more)?;
        if !stands(alloc, &table, wanted.as_bytes())? {
            return Ok(Some(*wanted));
        }
    }
    Ok(None)
}

#[test]
fn pairs_stand_in_their_places(rt: HostRuntime) -> Result<(), Fail> {
    assert!(rt; first_wrong(rt.alloc(), PLACES)? == None);
    Ok(())
}

/// A worked search: the capacity asked for, the pairs inserted, a search by a hash for an index or for none; what it
/// finds, and how many questions it asks.
const SEARCHES: [(usize, &[Pair], Pair, bool, Option<u8>, usize); 4] = [
    (7, &[(1, b'a'), (2, b'b')], (9, b'a'), true, None, 0),
    (0, &[], (9, b'a'), true, None, 0),
    (14, &[(1, b'a'), (9, b'b')], (9, b'b'), true, Some(b'b'), 1),
    (
        7,
        &[(6, b'a'), (7, b'b'), (6, b'c')],
        (6, b'a'),
        false,
        None,
        2,
    ),
];

/// Searches by a hash for an index, or for none. Returns what it finds, and how many questions it asks.
fn search(table: &IndexTable, (hash, slot): Pair, yes: bool) -> (Option<ItemIndex>, usize) {
    let mut matcher = asking_for(slot, yes);
    let found = table.find(hash, &mut matcher, &mut Meter::new());
    (found, matcher.questions)
}

#[test]
fn searches_ask_under_their_hash_alone(rt: HostRuntime) -> Result<(), Fail> {
    for (room, pairs, pair, yes, wanted, asked) in SEARCHES {
        let mut table = IndexTable::with_capacity(rt.alloc(), room)?;
        enter(&mut table, pairs);
        let wanted = wanted.map(|slot| ItemIndex::new(slot as usize));
        assert!(rt; search(&table, pair, yes) == (wanted, asked));
    }
    Ok(())
}

// Seven eighths of the cells have a pair in a full table. So a third of them do in a full map if the table has room for 21 eighths
// of the items, and half of them if it has room for seven quarters, both rounded up.
#[test]
fn tables_have_no_more_room_than_their_load_asks_for(rt: HostRuntime) {
    assert!(rt; pairs_for(1) == 3 && pairs_for(8) == 21 && pairs_for(4_096) == 10_752);
    assert!(rt; pairs_for(4_097) == 7_170 && pairs_for(65_536) == 114_688);
    assert!(rt; pairs_for(65_537) == 65_537);
}
