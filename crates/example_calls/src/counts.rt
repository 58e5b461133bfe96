//! Counting by the entry of one key: a word that is there is counted once more, and a new one goes in.
ghost use Rattle.std.specs.Prelude.{◌≡◌, ◌+◌, ◌-◌, ◌^◌, ◌∷◌, min, nat_eq, string_bytes, Some, None, IsOk, IsPermutation, OnOk, OnErr};
ghost use Rattle.std.specs.Cmp.Lexicographic.{pointwise};
ghost use Rattle.std.proofs.Common.{rules};
ghost use Rattle.iddqd_id.specs.Bag.{IsOnly, swap};
ghost use Rattle.iddqd_id.specs.Map.{bag};

use iddqd_id::{Entry, IdHashItem, IdHashItemMut, IdHashMap, Ranked};
use std::alloc::{AllocError, Global};

/// A word, and how often it was counted.
#[derive(Drop)]
pub struct Word {
    pub text: String,
    pub count: u64,
}

impl IdHashItem for Word {
    type Key = String;

    ghost key = { λ w. w.text };

    fn key(&self) -> &String {
        &self.text
    }
}

impl IdHashItemMut for Word {
    type Data = u64;

    ghost data_of = { λ w. w.count };

    ghost put = { λ w n. record w { count = n } };

    ghost keeps_key = { Prim.search rules };

    ghost put_shows = { Prim.search rules };

    fn data_mut(&mut self) -> &mut u64 {
        &mut self.count
    }
}

/// Counts a word: one that is there gets a count of one more, but for the largest `u64`, and a new one goes in with the
/// count 1. Only a new one needs memory, and if there is none, nothing changes.
pub fn count_word(alloc: Global, words: &mut IdHashMap<Word>, text: &str) -> Result<(), AllocError>
    ensures counted { (w : Word) → IsOnly (λ w. pointwise nat_eq text.now (string_bytes w.text)) (bag words.old) (Some w)
        → IsOk result × IsPermutation (bag words.new)
        (swap ⟦<Word as Ranked>⟧.ranks (bag words.old) w (record w { count = min (w.count + 1) (2 ^ 64 - 1) })) }
    ensures went_in { IsOnly (λ w. pointwise nat_eq text.now (string_bytes w.text)) (bag words.old) None
        → OnOk result ((w : Word) × (string_bytes w.text ≡ text.now) × (w.count ≡ 1)
        × IsPermutation (bag words.new) (w ∷ bag words.old)) }
    ensures unchanged { OnErr result (words.new ≡ words.old) }
{
    match words.entry(text) {
        Entry::Occupied(mut known) => {
            known.update(|word| word.count.saturating_add(1));
            return Ok(());
        }
        Entry::Vacant(free) => match String::from_str(alloc, text) {
            Ok(text) => match free.insert(Word { text, count: 1 }) {
                Ok(_lent) => return Ok(()),
                Err(_refused) => return Err(AllocError),
            },
            Err(_no_memory) => return Err(AllocError),
        },
    }
}
