//! Keys of several fields: each is a struct in a field of the item. The item's own `==` compares all of it.
ghost use Rattle.std.specs.Prelude.{◌≡◌, ◌<◌, ◌==◌, ◌&&◌, ◌∷◌, [], length, IsOk, IsPermutation, OnOk, OnErr, IfErr, IfSome, IfNone, option_copied};
ghost use Rattle.std.specs.List.{list_any};
ghost use Rattle.iddqd_bi.specs.Bag.{IsOnly, conflicts_of};
ghost use Rattle.iddqd_bi.specs.Map.{bag};

use iddqd_bi::{BiHashItem, BiHashMap, Ranked, Rejected};

/// A series and a number in it.
#[derive(Clone, Copy, PartialEq, Eq, Hash)]
pub struct Title {
    pub series: u64,
    pub number: u32,
}

/// A place on a shelf.
#[derive(Clone, Copy, PartialEq, Eq, Hash)]
pub struct Spot {
    pub shelf: u32,
    pub place: u16,
}

/// A volume of a series, known by its title and by the place at which it is shelved.
#[derive(Drop, PartialEq)]
pub struct Volume {
    pub title: Title,
    pub spot: Spot,
    pub pages: u32,
}

impl BiHashItem for Volume {
    type K1 = Title;

    type K2 = Spot;

    ghost key1 = { λ v. v.title };

    ghost key2 = { λ v. v.spot };

    fn key1(&self) -> &Title {
        &self.title
    }

    fn key2(&self) -> &Spot {
        &self.spot
    }
}

/// Puts a volume on its shelf. The error has it, and says whether there is such a volume already, and whether the place
/// is taken.
pub fn shelve(volumes: &mut BiHashMap<Volume>, volume: Volume) -> Result<(), Rejected<Volume>>
    ensures went_in { OnOk result (IsPermutation (bag volumes.new) (volume ∷ bag volumes.old)) }
    ensures granted { conflicts_of ⟦<Volume as Ranked>⟧.ranks (bag volumes.old) volume ≡ []
        → length (bag volumes.old) < volumes.old.capacity → IsOk result }
    ensures handed_back { IfErr result (λ e. e.item ≡ volume) }
    ensures taken { IfErr result (λ e.
        (e.taken1 ≡ list_any (λ v. ⟦<Title as PartialEq>⟧.eq volume.title v.title) (bag volumes.old))
        × (e.taken2 ≡ list_any (λ v. ⟦<Spot as PartialEq>⟧.eq volume.spot v.spot) (bag volumes.old))) }
    ensures unchanged { OnErr result (volumes.new ≡ volumes.old) }
{
    volumes.try_insert(volume)
}

/// Returns the volume with this number of a series, if there is one.
pub fn titled(volumes: &BiHashMap<Volume>, series: u64, number: u32) -> Option<&Volume>
    ensures { IsOnly (λ v. (series == v.title.series) && (number == v.title.number))
        (bag volumes.now) (option_copied result) }
{
    volumes.get1(&Title { series, number })
}

/// Takes the volume with this number of a series from its shelf, and returns it, if there is one.
pub fn lend(volumes: &mut BiHashMap<Volume>, series: u64, number: u32) -> Option<Volume>
    ensures it { IsOnly (λ v. (series == v.title.series) && (number == v.title.number)) (bag volumes.old) result }
    ensures gone { IfSome result (λ v. IsPermutation (bag volumes.old) (v ∷ bag volumes.new)) }
    ensures none { IfNone result (volumes.new ≡ volumes.old) }
{
    volumes.remove1(&Title { series, number })
}
