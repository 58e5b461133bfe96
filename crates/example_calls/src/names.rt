//! A text as a key: items hold it as a `String`, and lookups take a `&str`.
ghost use Rattle.std.specs.Prelude.{◌≡◌, ◌<◌, ◌∷◌, [], nat_eq, string_bytes, length, IsOk, IsPermutation, OnOk, OnErr, IfErr, IfSome, IfNone, option_copied};
ghost use Rattle.std.specs.Cmp.Lexicographic.{pointwise};
ghost use Rattle.iddqd_id.specs.Bag.{IsOnly, conflicts_of};
ghost use Rattle.iddqd_id.specs.Map.{bag};

use iddqd_id::{IdHashItem, IdHashMap, Ranked};

/// A symbol, known by its name.
#[derive(Drop)]
pub struct Symbol {
    pub name: String,
    pub address: u64,
}

impl IdHashItem for Symbol {
    type Key = String;

    ghost key = { λ s. s.name };

    fn key(&self) -> &String {
        &self.name
    }
}

/// Defines a symbol, or returns it.
pub fn define(symbols: &mut IdHashMap<Symbol>, symbol: Symbol) -> Result<(), Symbol>
    ensures went_in { OnOk result (IsPermutation (bag symbols.new) (symbol ∷ bag symbols.old)) }
    ensures granted { conflicts_of ⟦<Symbol as Ranked>⟧.ranks (bag symbols.old) symbol ≡ []
        → length (bag symbols.old) < symbols.old.capacity → IsOk result }
    ensures handed_back { IfErr result (λ s. s ≡ symbol) }
    ensures unchanged { OnErr result (symbols.new ≡ symbols.old) }
{
    symbols.try_insert(symbol).map_err(|rejected| rejected.item)
}

/// Returns the symbol with this name, if there is one.
pub fn resolve<'s>(symbols: &'s IdHashMap<Symbol>, name: &str) -> Option<&'s Symbol>
    ensures { IsOnly (λ s. pointwise nat_eq name.now (string_bytes s.name)) (bag symbols.now) (option_copied result) }
{
    symbols.get(name)
}

/// Removes the symbol with this name, and returns it, if there is one.
pub fn undefine(symbols: &mut IdHashMap<Symbol>, name: &str) -> Option<Symbol>
    ensures it { IsOnly (λ s. pointwise nat_eq name.now (string_bytes s.name)) (bag symbols.old) result }
    ensures gone { IfSome result (λ s. IsPermutation (bag symbols.old) (s ∷ bag symbols.new)) }
    ensures absent { IfNone result (symbols.new ≡ symbols.old) }
{
    symbols.remove(name)
}
