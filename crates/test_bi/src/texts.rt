//! Keys that are texts, lists of bytes and pairs, looked up by borrowed values.
use iddqd_bi::{BiHashItem, BiHashMap};
use std::alloc::{AllocError, Global};
use std::boxed::{BoxedSlice, BoxedStr};
use std::hash::{Hash, Hasher};
use std::rc::RcStr;
use std::test::Fail;

/// An item with keys of any types.
#[derive(Drop)]
pub struct Keyed<A, B> {
    pub first: A,
    pub second: B,
    pub number: u64,
}

impl<A: Eq + Hash, B: Eq + Hash> BiHashItem for Keyed<A, B> {
    type K1 = A;

    type K2 = B;

    ghost key1 = { λ x. x.first };

    ghost key2 = { λ x. x.second };

    fn key1(&self) -> &A {
        &self.first
    }

    fn key2(&self) -> &B {
        &self.second
    }
}

/// The number of the item that a lookup found, if it found one.
macro_rules! number_of {
    ($found:expr) => {
        match $found {
            Some(item) => Some(item.number),
            None => None,
        }
    };
}

pub(crate) use number_of;

/// A page with a title and a tag.
type Page = Keyed<String, Vec<u8>>;

fn page_of(alloc: Global, number: u64, title: &str, tag: &str) -> Result<Page, AllocError> {
    let first = title.to_string(alloc)?;
    let second = tag.as_bytes().to_vec(alloc)?;
    Ok(Keyed {
        first,
        second,
        number,
    })
}

/// Inserts a page, and returns whether it was inserted.
fn is_added(map: &mut BiHashMap<Page>, page: Page) -> bool {
    map.try_insert(page).is_ok()
}

/// Returns the page that has this text as its title.
fn titled(map: &BiHashMap<Page>, text: &str) -> Option<u64> {
    number_of!(map.get1(text))
}

/// Returns the page that has the bytes of this text as its tag.
fn tagged(map: &BiHashMap<Page>, text: &str) -> Option<u64> {
    number_of!(map.get2(text.as_bytes()))
}

/// A text, the page that has it as its title, and the page that has its bytes as its tag.
const PAGES: [(&str, Option<u64>, Option<u64>); 5] = [
    ("ab", Some(1), Some(2)),
    ("cd", Some(2), Some(1)),
    ("a", None, None),
    ("abc", None, None),
    ("", None, None),
];

#[test]
fn lent_texts_and_slices_ask_for_owned_ones(rt: HostRuntime) -> Result<(), Fail> {
    let mut map = BiHashMap::new(rt.alloc());
    for (number, title, tag) in [(1, "ab", "cd"), (2, "cd", "ab")] {
        let page = page_of(rt.alloc(), number, title, tag)?;
        assert!(rt; is_added(&mut map, page));
    }
    for (text, by_title, by_tag) in &PAGES {
        assert!(rt;
            titled(&map, text) == *by_title && tagged(&map, text) == *by_tag,
            "{text}"
        );
    }
    Ok(())
}

/// A seat with a row and a place in it, and a name.
type Seat = Keyed<(u32, u16), String>;

fn seat_of(alloc: Global, row: u32, place: u16, name: &str) -> Result<Seat, AllocError> {
    let second = name.to_string(alloc)?;
    Ok(Keyed {
        first: (row, place),
        second,
        number: 0,
    })
}

/// Inserts a seat, and returns whether it was inserted.
fn is_placed(map: &mut BiHashMap<Seat>, seat: Seat) -> bool {
    map.try_insert(seat).is_ok()
}

/// Returns whether there is a seat of this row and place, and whether there is one of this name.
fn has_seats(map: &BiHashMap<Seat>, row: u32, place: u16, text: &str) -> (bool, bool) {
    let is_at = map.contains_key1((&row, &place));
    (is_at, map.contains_key2(text))
}

/// A row, a place in it and a text, and whether there is a seat of this row and place, and one of this name.
const SEATS: [(u32, u16, &str, bool, bool); 5] = [
    (1, 7, "left", true, true),
    (2, 7, "right", true, true),
    (7, 1, "", false, false),
    (1, 8, "lef", false, false),
    (3, 7, "lefts", false, false),
];

#[test]
fn pairs_and_texts_ask_for_keys(rt: HostRuntime) -> Result<(), Fail> {
    let mut map = BiHashMap::new(rt.alloc());
    for (row, place, text) in [(1, 7, "left"), (2, 7, "right")] {
        let seat = seat_of(rt.alloc(), row, place, text)?;
        assert!(rt; is_placed(&mut map, seat));
    }
    for (row, place, text, is_at, is_named) in &SEATS {
        let found = has_seats(&map, *row, *place, text);
        assert!(rt; found == (*is_at, *is_named), "{row} {place} {text}");
    }
    Ok(())
}

/// A file with a boxed name and a shared path.
type Named = Keyed<BoxedStr, RcStr>;

fn named_of(alloc: Global, number: u64, name: &str, path: &str) -> Result<Named, AllocError> {
    let first = BoxedStr::from_str(alloc, name)?;
    let second = RcStr::from_str(alloc, path)?;
    Ok(Keyed {
        first,
        second,
        number,
    })
}

/// Inserts a file, and returns whether it was inserted.
fn is_stored(map: &mut BiHashMap<Named>, file: Named) -> bool {
    map.try_insert(file).is_ok()
}

/// Returns the file that has this text as its name, and the one that has it as its path.
fn named(map: &BiHashMap<Named>, text: &str) -> [Option<u64>; 2] {
    [number_of!(map.get1(text)), number_of!(map.get2(text))]
}

#[test]
fn lent_texts_ask_for_boxed_and_shared_ones(rt: HostRuntime) -> Result<(), Fail> {
    let mut map = BiHashMap::new(rt.alloc());
    for (number, name, path) in [(1, "ab", "cd"), (2, "cd", "ab")] {
        let file = named_of(rt.alloc(), number, name, path)?;
        assert!(rt; is_stored(&mut map, file));
    }
    for (text, by_name, by_path) in &PAGES {
        assert!(rt; named(&map, text) == [*by_name, *by_path], "{text}");
    }
    Ok(())
}

/// A picture with boxed bytes and a boxed name.
type Picture = Keyed<BoxedSlice<u8>, BoxedStr>;

fn picture_of(alloc: Global, text: &str) -> Result<Picture, AllocError> {
    let first = text.as_bytes().to_vec(alloc)?.into_boxed_slice();
    let second = BoxedStr::from_str(alloc, text)?;
    Ok(Keyed {
        first,
        second,
        number: 0,
    })
}

/// Inserts a picture, and returns whether it was inserted.
fn is_shown(map: &mut BiHashMap<Picture>, picture: Picture) -> bool {
    map.try_insert(picture).is_ok()
}

/// Returns whether there is a picture of the bytes of this text.
fn has_bytes(map: &BiHashMap<Picture>, text: &str) -> bool {
    map.contains_key1(text.as_bytes())
}

#[test]
fn lent_slices_ask_for_boxed_ones(rt: HostRuntime) -> Result<(), Fail> {
    let mut map = BiHashMap::new(rt.alloc());
    let picture = picture_of(rt.alloc(), "ab")?;
    assert!(rt; is_shown(&mut map, picture));
    for (text, is_there) in [("ab", true), ("a", false), ("abc", false), ("", false)] {
        assert!(rt; has_bytes(&map, text) == is_there, "{text}");
    }
    Ok(())
}
