//! Lookups, entries and removals by borrowed keys, and by any query.
ghost use Rattle.std.specs.Prelude.{◌≡◌, ◌&&◌, ◌∷◌, [], nat_eq, string_bytes, IsPermutation, IfSome, IfNone, option_copied};
ghost use Rattle.std.specs.Bool.{OnTrue, OnFalse};
ghost use Rattle.std.specs.Cmp.Lexicographic.{pointwise};
ghost use Rattle.std.specs.List.{list_any};
ghost use Rattle.iddqd_bi.specs.Bag.{IsOnly};
ghost use Rattle.iddqd_bi.specs.Map.{bag};

use crate::items::Symbol;
use iddqd_bi::{BiHashItem, BiHashMap, Entry, Query};
use std::hash::{BuildHasher, Hash};

/// Returns the symbol with this name, which is given as a `&str`.
pub fn resolve<'s>(symbols: &'s BiHashMap<Symbol>, name: &str) -> Option<&'s Symbol>
    ensures { IsOnly (λ s. pointwise nat_eq name.now (string_bytes s.name)) (bag symbols.now) (option_copied result) }
{
    symbols.get1(name)
}

/// Returns the symbol `main`, at which a program begins.
pub fn entry_point(symbols: &BiHashMap<Symbol>) -> Option<&Symbol>
    ensures { IsOnly (λ s. pointwise nat_eq (109 ∷ 97 ∷ 105 ∷ 110 ∷ []) (string_bytes s.name)) (bag symbols.now) (option_copied result) }
{
    symbols.get1("main")
}

/// Returns whether a symbol lies at this place, which is given as a `&str` and a number.
pub fn is_at(symbols: &BiHashMap<Symbol>, section: &str, offset: u32) -> bool
    ensures { result ≡ list_any (λ s. pointwise nat_eq section.now (string_bytes s.place.0) && nat_eq offset s.place.1)
        (bag symbols.now) }
{
    symbols.contains_key2((section, &offset))
}

/// Removes the symbol with this name, which is given as a `&str`.
pub fn undefine(symbols: &mut BiHashMap<Symbol>, name: &str) -> Option<Symbol>
    ensures it { IsOnly (λ s. pointwise nat_eq name.now (string_bytes s.name)) (bag symbols.old) result }
    ensures gone { IfSome result (λ s. IsPermutation (bag symbols.old) (s ∷ bag symbols.new)) }
    ensures absent { IfNone result (symbols.new ≡ symbols.old) }
{
    symbols.remove1(name)
}

/// Inserts a symbol through an entry that is asked for by borrowed texts. Returns whether it did: it does not if a symbol has
/// this name or lies at this place, if the new one has another name or place, or if there is no memory.
pub fn define_at(
    symbols: &mut BiHashMap<Symbol>,
    name: &str,
    section: &str,
    offset: u32,
    symbol: Symbol,
) -> bool
    ensures went_in { OnTrue result (IsPermutation (bag symbols.new) (symbol ∷ bag symbols.old)) }
    ensures unchanged { OnFalse result (symbols.new ≡ symbols.old) }
{
    match symbols.entry(name, (section, &offset)) {
        Entry::Vacant(free) => match free.insert(symbol) {
            Ok(_lent) => return true,
            Err(_e) => return false,
        },
        Entry::Occupied(_found) => return false,
    }
}

/// Returns the item with this first key.
pub fn by_key<'m, T: BiHashItem, S: BuildHasher>(
    map: &'m BiHashMap<T, S>,
    key: &T::K1,
) -> Option<&'m T>
    ensures { IsOnly (λ x. T.K1.eq key.now (T.key1 x)) (bag map.now) (option_copied result) }
{
    map.get1(key)
}

/// Returns the item with the first key that the query stands for.
pub fn by_query<'m, T: BiHashItem, S: BuildHasher, Q: Query<T::K1>>(
    map: &'m BiHashMap<T, S>,
    query: Q,
) -> Option<&'m T>
    ensures { IsOnly (λ x. Q.stands_for query (T.key1 x)) (bag map.now) (option_copied result) }
{
    map.get1(query)
}

/// Removes the item with the first key that the query stands for.
pub fn take_by_query<T: BiHashItem, S: BuildHasher, Q: Query<T::K1>>(
    map: &mut BiHashMap<T, S>,
    query: Q,
) -> Option<T>
    ensures it { IsOnly (λ x. Q.stands_for query (T.key1 x)) (bag map.old) result }
    ensures gone { IfSome result (λ x. IsPermutation (bag map.old) (x ∷ bag map.new)) }
    ensures absent { IfNone result (map.new ≡ map.old) }
{
    map.remove1(query)
}
