//! Items with a lifetime: each borrows its word from a text.
ghost use Rattle.std.specs.Prelude.{◌≡◌, ◌∷◌, OnOk, OnErr, nat_eq, IsPermutation, option_copied};
ghost use Rattle.std.specs.Cmp.Lexicographic.{pointwise};
ghost use Rattle.iddqd_bi.specs.Bag.{IsOnly};
ghost use Rattle.iddqd_bi.specs.Map.{bag};

use iddqd_bi::{BiHashItem, BiHashMap, MemoryRefused, Rejected};

/// A word, known by its text and by its number.
#[derive(Drop)]
pub struct Word<'t> {
    pub text: &'t str,
    pub number: u32,
}

impl<'t> BiHashItem for Word<'t> {
    type K1 = &'t str;

    type K2 = u32;

    ghost key1 = { λ w. w.text };

    ghost key2 = { λ w. w.number };

    fn key1(&self) -> &&'t str {
        &self.text
    }

    fn key2(&self) -> &u32 {
        &self.number
    }
}

/// Adds a word. The error has it, and says which of its keys are taken.
pub fn add<'t>(words: &mut BiHashMap<Word<'t>>, word: Word<'t>) -> Result<(), Rejected<Word<'t>>>
    ensures went_in { OnOk result (IsPermutation (bag words.new) (word.entry ∷ bag words.old)) }
    ensures unchanged { OnErr result (words.new ≡ words.old) }
{
    words.try_insert(word)
}

/// Returns the word with this text, if there is one.
pub fn find<'w, 't>(words: &'w BiHashMap<Word<'t>>, text: &str) -> Option<&'w Word<'t>>
    ensures { IsOnly (λ w. pointwise nat_eq text.now w.text.now) (bag words.now) (option_copied result) }
{
    words.get1(text)
}

/// Adds the words of a text that are not there yet.
pub fn add_all<'t>(
    words: &mut BiHashMap<Word<'t>>,
    text: &'t str,
) -> Result<(), MemoryRefused<Word<'t>>> {
    let mut number = 0u32;
    for word in text.split_whitespace() {
        if !words.contains_key1(word) {
            words.insert_overwrite(Word { text: word, number })?;
            number = number.saturating_add(1);
        }
    }
    Ok(())
}
