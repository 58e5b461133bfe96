//! A map with a builder of hashers of your own. Here a number is its own hash, for keys that are spread by themselves.
ghost use Rattle.std.specs.Prelude.{◌≡◌, [], slice_index_or};
ghost use Rattle.std.specs.Int.{from_le_bytes};
ghost use mir.Syntax.{w64};
ghost use Rattle.iddqd_id.specs.Map.{bag};

use iddqd_id::{IdHashItem, IdHashMap};
use std::alloc::Global;
use std::hash::{BuildHasher, Hasher};

/// A builder of hashers that gives each `u64` itself as its hash.
#[derive(Clone, Copy)]
pub struct OwnHash;

/// A hasher of `OwnHash`: the number that the first eight bytes of the last write make.
#[derive(Clone, Copy)]
pub struct OwnHasher {
    number: u64,
}

fn byte(bytes: &[u8], at: usize) -> u8
    ensures { result ≡ slice_index_or bytes.now at 0 }
{
    bytes.get(at).copied().unwrap_or(0)
}

impl Hasher for OwnHasher {
    ghost write = { λ _ bytes. record { number = from_le_bytes w64 bytes } };

    ghost finish = { λ s. s.number };

    fn finish(&self) -> u64 {
        self.number
    }

    fn write(&mut self, bytes: &[u8]) {
        self.number = u64::from_le_bytes([
            byte(bytes, 0),
            byte(bytes, 1),
            byte(bytes, 2),
            byte(bytes, 3),
            byte(bytes, 4),
            byte(bytes, 5),
            byte(bytes, 6),
            byte(bytes, 7),
        ]);
    }
}

impl BuildHasher for OwnHash {
    type Hasher = OwnHasher;

    ghost build_hasher = { λ _. record { number = 0 } };

    fn build_hasher(&self) -> OwnHasher {
        OwnHasher { number: 0 }
    }
}

/// An order, known by its number, with the number of its payment.
#[derive(Drop)]
pub struct Order {
    pub number: u64,
    pub payment: u64,
}

impl IdHashItem for Order {
    type Key = u64;

    ghost key = { λ o. o.number };

    fn key(&self) -> &u64 {
        &self.number
    }
}

/// Makes a map without orders.
pub fn no_orders(alloc: Global) -> IdHashMap<Order, OwnHash>
    ensures { bag result ≡ [] }
{
    IdHashMap::with_hasher(alloc, OwnHash)
}
