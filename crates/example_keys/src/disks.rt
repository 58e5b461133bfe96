//! An item that is an enum, with its keys in each variant.
ghost use Rattle.std.specs.Prelude.{◌≡◌, ◌==◌, ◌∷◌, OnOk, OnErr, IsPermutation, option_copied};
ghost use Rattle.iddqd_bi.specs.Bag.{IsOnly};
ghost use Rattle.iddqd_bi.specs.Map.{bag};
ghost use Rattle.example_keys.specs.Disks.{identity_of, slot_of};

use iddqd_bi::{BiHashItem, BiHashMap, Rejected};

/// What a disk says of itself.
#[derive(PartialEq, Eq, Hash, Drop)]
pub struct DiskIdentity {
    pub vendor: String,
    pub serial: String,
}

/// A disk of hardware, or one made for a test, known by its identity and by its slot.
#[derive(Drop)]
pub enum Disk {
    Real {
        identity: DiskIdentity,
        slot: u32,
        bytes: u64,
    },
    Synthetic {
        identity: DiskIdentity,
        slot: u32,
    },
}

impl BiHashItem for Disk {
    type K1 = DiskIdentity;

    type K2 = u32;

    ghost key1 = { identity_of };

    ghost key2 = { slot_of };

    fn key1(&self) -> &DiskIdentity {
        match self {
            Disk::Real { identity, .. } => identity,
            Disk::Synthetic { identity, .. } => identity,
        }
    }

    fn key2(&self) -> &u32 {
        match self {
            Disk::Real { slot, .. } => slot,
            Disk::Synthetic { slot, .. } => slot,
        }
    }
}

/// Adds a disk. The error has it, and says which of its keys are taken.
pub fn add(disks: &mut BiHashMap<Disk>, disk: Disk) -> Result<(), Rejected<Disk>>
    ensures went_in { OnOk result (IsPermutation (bag disks.new) (disk ∷ bag disks.old)) }
    ensures unchanged { OnErr result (disks.new ≡ disks.old) }
{
    disks.try_insert(disk)
}

/// Returns the disk in this slot, if there is one.
pub fn in_slot(disks: &BiHashMap<Disk>, slot: u32) -> Option<&Disk>
    ensures { IsOnly (λ d. slot == slot_of d) (bag disks.now) (option_copied result) }
{
    disks.get2(&slot)
}
