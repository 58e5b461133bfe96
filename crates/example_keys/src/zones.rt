//! An identifier whose kind is a type, `TypedUuid`: a struct of a `Uuid` and a `PhantomData`, with derived traits.
ghost use Rattle.std.specs.Prelude.{◌≡◌, ◌∷◌, OnOk, OnErr, IsPermutation, option_copied};
ghost use Rattle.iddqd_bi.specs.Bag.{IsOnly};
ghost use Rattle.iddqd_bi.specs.Map.{bag};

use iddqd_bi::{BiHashItem, BiHashMap, Rejected};
use std::marker::PhantomData;
use uuid::Uuid;

/// An identifier of things of a kind.
#[derive(Clone, Copy, PartialEq, Eq, Hash)]
pub struct TypedUuid<K> {
    pub id: Uuid,
    pub kind: PhantomData<K>,
}

impl<K> TypedUuid<K> {
    /// Makes an identifier of this kind.
    pub fn new(id: Uuid) -> Self
        ensures { result.id ≡ id }
    {
        TypedUuid {
            id,
            kind: PhantomData,
        }
    }
}

/// The kind of zones.
#[derive(Clone, Copy, PartialEq, Eq, Hash)]
pub struct ZoneKind;

/// A zone, known by its identifier and by its number.
#[derive(Drop)]
pub struct Zone {
    pub id: TypedUuid<ZoneKind>,
    pub number: u32,
}

impl BiHashItem for Zone {
    type K1 = TypedUuid<ZoneKind>;

    type K2 = u32;

    ghost key1 = { λ z. z.id };

    ghost key2 = { λ z. z.number };

    fn key1(&self) -> &TypedUuid<ZoneKind> {
        &self.id
    }

    fn key2(&self) -> &u32 {
        &self.number
    }
}

/// Starts a zone. The error has it, and says which of its keys are taken.
pub fn start(zones: &mut BiHashMap<Zone>, zone: Zone) -> Result<(), Rejected<Zone>>
    ensures went_in { OnOk result (IsPermutation (bag zones.new) (zone ∷ bag zones.old)) }
    ensures unchanged { OnErr result (zones.new ≡ zones.old) }
{
    zones.try_insert(zone)
}

/// Returns the zone with this identifier, if there is one.
pub fn identified(zones: &BiHashMap<Zone>, id: TypedUuid<ZoneKind>) -> Option<&Zone>
    ensures { IsOnly (λ z. ⟦<TypedUuid<ZoneKind> as PartialEq>⟧.eq id z.id) (bag zones.now) (option_copied result) }
{
    zones.get1(&id)
}
