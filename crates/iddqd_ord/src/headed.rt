//! A text with its first bytes as a number: a key that is compared without reading the text, where the first bytes differ.
ghost use Rattle.std.specs.Prelude.{◌≡◌, ◌<◌, get_or, length, refl, string_bytes, string_cmp, string_eq, Some};
ghost use Rattle.std.specs.Cmp.{on_equiv, on_per, on_po, on_total, partial_equiv_from_equiv};
ghost use Rattle.std.specs.Cmp.Lexicographic.{slice_cmp, nat_list_eq_equiv, nat_list_cmp_total, texts_ties, texts_po};
ghost use Rattle.std.specs.Ordering.{nat_cmp};
ghost use Rattle.iddqd_ord.specs.Heads.{text_head};

use std::alloc::AllocError;
use std::cmp::Ordering;
use std::fmt::{self, Debug, Display, Formatter, Write};
use std::marker::Model;

/// A text that has its first eight bytes as a number beside it. As a key of an `IdOrdMap` it has the order of the text, and where
/// the first eight bytes of two texts differ, their comparison reads the numbers alone, which stand in the item.
///
/// A lookup takes a `HeadedStr`, which has the number of what is sought, or a `&str`, which has it made for each comparison.
#[derive(Drop)]
pub struct HeadedString {
    head: u64,
    text: String,
}

// What contracts see is the text.
impl Model for HeadedString {
    ghost use Rattle.std.specs.Prelude.{◌≡◌, String, string_bytes};
    ghost use Rattle.std.specs.Global.{Global};
    ghost use Rattle.iddqd_ord.specs.Heads.{text_head};

    ghost Value = { String Global };

    ghost view = { λ t. t.text };

    ghost invariant = { λ t. t.head ≡ text_head (string_bytes t.text) };
}

/// Returns the byte at a place, and 0 behind the last one.
fn byte_at(bytes: &[u8], at: usize) -> u64
    ensures byte { result ≡ get_or bytes.now at 0 }
    ensures small { result < 256 }
{
    if at < bytes.len() {
        bytes[at] as u64
    } else {
        0
    }
}

/// Returns the head of fewer than eight bytes.
fn short_head(bytes: &[u8]) -> u64
    requires { length bytes.now < 8 }
    ensures { result ≡ text_head bytes.now }
{
    byte_at(bytes, 0) * 0x100_0000_0000_0000
        + byte_at(bytes, 1) * 0x1_0000_0000_0000
        + byte_at(bytes, 2) * 0x100_0000_0000
        + byte_at(bytes, 3) * 0x1_0000_0000
        + byte_at(bytes, 4) * 0x100_0000
        + byte_at(bytes, 5) * 0x1_0000
        + byte_at(bytes, 6) * 0x100
}

/// Returns the first eight bytes of a text as a number, the first byte as the highest. Missing ones count as 0.
pub(crate) fn head_of(text: &str) -> u64
    ensures { result ≡ text_head text.now }
{
    let bytes = text.as_bytes();
    if bytes.len() < 8 {
        return short_head(bytes);
    }
    // The compiler makes one read of this.
    bytes[0] as u64 * 0x100_0000_0000_0000
        + bytes[1] as u64 * 0x1_0000_0000_0000
        + bytes[2] as u64 * 0x100_0000_0000
        + bytes[3] as u64 * 0x1_0000_0000
        + bytes[4] as u64 * 0x100_0000
        + bytes[5] as u64 * 0x1_0000
        + bytes[6] as u64 * 0x100
        + bytes[7] as u64
}

/// A borrowed text that has its first eight bytes as a number beside it. A lookup by a `HeadedString` takes one, as
/// `terms.get(HeadedStr::new("main"))` does, and makes the number once.
#[derive(Clone, Copy)]
pub struct HeadedStr<'a> {
    head: u64,
    text: &'a str,
    ghost headed: { head ≡ text_head text.now },
}

impl<'a> HeadedStr<'a> {
    /// Makes one of a text, of which it reads the first eight bytes.
    pub fn new(text: &'a str) -> Self
        ensures { result.text.now ≡ text.now }
    {
        HeadedStr {
            head: head_of(text),
            text,
        }
    }

    /// Lends the text.
    pub fn as_str(&self) -> &'a str
        ensures { result ≡ self.now.text }
    {
        self.text
    }
}

impl HeadedString {
    /// Makes one of a text, of which it reads the first eight bytes.
    pub fn new(text: String) -> Self
        ensures { result ≡ text }
    {
        HeadedString {
            head: head_of(text.as_str()),
            text,
        }
    }

    /// Lends the text.
    pub fn as_str(&self) -> &str
        ensures { result.now ≡ string_bytes self.now }
    {
        self.text.as_str()
    }

    /// Returns the text.
    pub fn into_string(self) -> String
        ensures { result ≡ self }
    {
        self.text
    }

    /// Lends the text with the number.
    pub(crate) fn as_headed(&self) -> HeadedStr<'_>
        ensures { result.text.now ≡ string_bytes self.now }
    {
        let text = self.text.as_str();
        HeadedStr {
            head: self.head,
            text,
        }
    }

    /// Compares the text with another one.
    pub(crate) fn compare(&self, other: HeadedStr<'_>) -> Ordering
        ensures { result ≡ slice_cmp nat_cmp (string_bytes self.now) other.entry.text.now }
    {
        compare_headed(self.head, self.text.as_str(), other.head, other.text)
    }
}

/// Compares two texts by their heads, and where these are equal, by themselves.
fn compare_headed(head: u64, text: &str, other_head: u64, other: &str) -> Ordering
    requires head { head ≡ text_head text.now }
    requires other { other_head ≡ text_head other.now }
    ensures { result ≡ slice_cmp nat_cmp text.now other.now }
{
    match head.cmp(&other_head) {
        Ordering::Equal => text.cmp(other),
        side => side,
    }
}

impl Clone for HeadedString {
    ghost is_clone = { λ t copy. string_bytes copy ≡ string_bytes t };

    fn clone(&self) -> Result<Self, AllocError> {
        Ok(HeadedString {
            head: self.head,
            text: self.text.clone()?,
        })
    }
}

impl PartialEq for HeadedString {
    ghost eq = { string_eq };

    ghost laws = { on_per (λ x. string_bytes x) (partial_equiv_from_equiv nat_list_eq_equiv) };

    fn eq(&self, other: &Self) -> bool {
        self.text == other.text
    }
}

impl Eq for HeadedString {
    ghost laws = { on_equiv (λ x. string_bytes x) nat_list_eq_equiv };
}

impl PartialOrd for HeadedString {
    ghost partial_cmp = { λ x y. Some (string_cmp x y) };

    ghost laws = { on_po (λ x. string_bytes x) texts_po };

    fn partial_cmp(&self, other: &Self) -> Option<Ordering> {
        Some(self.cmp(other))
    }
}

impl Ord for HeadedString {
    ghost cmp = { string_cmp };

    ghost total = { on_total (λ x. string_bytes x) nat_list_cmp_total };

    ghost matches_partial_cmp = { λ x y. refl };

    ghost matches_eq = { λ x y. texts_ties (string_bytes x) (string_bytes y) };

    fn cmp(&self, other: &Self) -> Ordering {
        self.compare(other.as_headed())
    }
}

impl Debug for HeadedString {
    /// Prints the text as a `String` prints itself.
    fn fmt<W: Write>(&self, f: &mut Formatter<W>) -> fmt::Result {
        Debug::fmt(&self.text, f)
    }
}

impl Display for HeadedString {
    ghost output = { λ t. Some (string_bytes t) };

    fn fmt<W: Write>(&self, f: &mut Formatter<W>) -> fmt::Result {
        Display::fmt(&self.text, f)
    }
}
