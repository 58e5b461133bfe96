//! Items with a key that is a reference. For such items no caller of `insert_unique` has a proof on this toolchain, and no
//! caller of `entry` knows the map afterwards. The callers below have a proof, and know the map.
ghost use Rattle.std.specs.Prelude.{◌≡◌, ◌∷◌, ◌<◌, [], nat_eq, length, IsOk, IsPermutation, OnOk, OnErr, IfErr, IfSome, IfNone};
ghost use Rattle.std.specs.Cmp.Lexicographic.{pointwise};
ghost use Rattle.std.specs.List.{list_any};
ghost use Rattle.iddqd_bi.specs.Bag.{IsOnly, conflicts_of};
ghost use Rattle.iddqd_bi.specs.Map.{bag};

use crate::items::Word;
use iddqd_bi::{BiHashMap, Ranked};

/// Inserts a word, or returns it.
pub fn add_word(words: &mut BiHashMap<Word>, word: Word) -> Result<(), Word>
    ensures went_in { OnOk result (IsPermutation (bag words.new) (word ∷ bag words.old)) }
    ensures granted { conflicts_of ⟦<Word as Ranked>⟧.ranks (bag words.old) word ≡ []
        → length (bag words.old) < words.old.capacity → IsOk result }
    ensures handed_back { IfErr result (λ w. w ≡ word) }
    ensures unchanged { OnErr result (words.new ≡ words.old) }
{
    words.try_insert(word).map_err(|rejected| rejected.item)
}

/// Returns whether there is a word with this text, which may be borrowed for a shorter time than the keys.
pub fn has_word(words: &BiHashMap<Word>, text: &str) -> bool
    ensures { result ≡ list_any (λ w. pointwise nat_eq text.now w.text.now) (bag words.now) }
{
    words.contains_key1(text)
}

/// Removes the word with this text.
pub fn forget_word(words: &mut BiHashMap<Word>, text: &str) -> Option<Word>
    ensures it { IsOnly (λ w. pointwise nat_eq text.now w.text.now) (bag words.old) result }
    ensures gone { IfSome result (λ w. IsPermutation (bag words.old) (w ∷ bag words.new)) }
    ensures absent { IfNone result (words.new ≡ words.old) }
{
    words.remove1(text)
}
