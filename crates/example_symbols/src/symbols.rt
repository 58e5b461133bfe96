//! A table of symbols, each known by its name and by its address.
ghost use Rattle.std.specs.Prelude.{◌≡◌, ◌<◌, ◌∷◌, ◌==◌, [], Some, nat_eq, string_bytes, length, IsOk, IsPermutation, OnOk, OnErr, IfOk, IfErr, IfSome, IfNone, option_copied};
ghost use Rattle.std.specs.Cmp.Lexicographic.{pointwise};
ghost use Rattle.std.specs.List.{list_any};
ghost use Rattle.std.specs.String.{string_eq};
ghost use Rattle.iddqd_bi.specs.Bag.{IsOnly, conflicts_of};
ghost use Rattle.iddqd_bi.specs.Map.{bag};
ghost use Rattle.iddqd_bi.specs.Rekeyed.{TellsWhyNot};

use iddqd_bi::{BiHashItem, BiHashMap, NotReplaced, Ranked, Rejected};

/// A symbol.
#[derive(Drop)]
pub struct Symbol {
    pub name: String,
    pub address: u64,
}

impl BiHashItem for Symbol {
    type K1 = String;

    type K2 = u64;

    ghost key1 = { λ s. s.name };

    ghost key2 = { λ s. s.address };

    fn key1(&self) -> &String {
        &self.name
    }

    fn key2(&self) -> &u64 {
        &self.address
    }
}

/// Defines a symbol. If its name or its address is taken, or if there is no memory, the error has the symbol, and says
/// which of the two is taken. If neither is, there was no memory, and no spare capacity for one more.
pub fn define(symbols: &mut BiHashMap<Symbol>, symbol: Symbol) -> Result<(), Rejected<Symbol>>
    ensures went_in { OnOk result (IsPermutation (bag symbols.new) (symbol ∷ bag symbols.old)) }
    ensures free { OnOk result (conflicts_of ⟦<Symbol as Ranked>⟧.ranks (bag symbols.old) symbol ≡ []) }
    ensures granted { conflicts_of ⟦<Symbol as Ranked>⟧.ranks (bag symbols.old) symbol ≡ []
        → length (bag symbols.old) < symbols.old.capacity → IsOk result }
    ensures handed_back { IfErr result (λ e. e.item ≡ symbol) }
    ensures taken { IfErr result (λ e. (e.taken1 ≡ list_any (λ s. string_eq symbol.name s.name) (bag symbols.old))
        × (e.taken2 ≡ list_any (λ s. symbol.address == s.address) (bag symbols.old))) }
    ensures unchanged { OnErr result (symbols.new ≡ symbols.old) }
{
    symbols.try_insert(symbol)
}

/// Returns the symbol with this name, if there is one.
pub fn resolve<'s>(symbols: &'s BiHashMap<Symbol>, name: &str) -> Option<&'s Symbol>
    ensures { IsOnly (λ s. pointwise nat_eq name.now (string_bytes s.name)) (bag symbols.now) (option_copied result) }
{
    symbols.get1(name)
}

/// Returns the symbol at this address, if there is one.
pub fn at_address(symbols: &BiHashMap<Symbol>, address: u64) -> Option<&Symbol>
    ensures { IsOnly (λ s. address == s.address) (bag symbols.now) (option_copied result) }
{
    symbols.get2(&address)
}

/// Removes the symbol with this name, and returns it, if there is one.
pub fn undefine(symbols: &mut BiHashMap<Symbol>, name: &str) -> Option<Symbol>
    ensures it { IsOnly (λ s. pointwise nat_eq name.now (string_bytes s.name)) (bag symbols.old) result }
    ensures gone { IfSome result (λ s. IsPermutation (bag symbols.old) (s ∷ bag symbols.new)) }
    ensures absent { IfNone result (symbols.new ≡ symbols.old) }
{
    symbols.remove1(name)
}

/// Gives the symbol at this address another name, and returns it as it was. No memory is allocated. The error is `Absent` if
/// there is no such symbol, and `Duplicate` if another one has the name.
pub fn rename(
    symbols: &mut BiHashMap<Symbol>,
    address: u64,
    name: String,
) -> Result<Symbol, NotReplaced<Symbol>>
    ensures was { IfOk result (λ s. IsOnly (λ s. address == s.address) (bag symbols.old) (Some s)) }
    ensures renamed { IfOk result (λ s. IsPermutation (s ∷ bag symbols.new)
        (record { name = name; address = address } ∷ bag symbols.old)) }
    ensures reason { IfErr result (λ e. TellsWhyNot ⟦<Symbol as Ranked>⟧.ranks (λ s. address == s.address)
        (bag symbols.old) (record { name = name; address = address }) e) }
    ensures unchanged { OnErr result (symbols.new ≡ symbols.old) }
{
    symbols.rekey2(&address, Symbol { name, address })
}
