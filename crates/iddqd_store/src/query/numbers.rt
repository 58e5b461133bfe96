//! A number, a `char` or a `bool` by itself is a query for the equal one: `get1(7)`, beside `get1(&7)`.
ghost use mathlib.Core.Bool.{beq};
ghost use Rattle.std.specs.Prelude.{nat_eq};
ghost use Rattle.std.specs.Ordering.{int_eq};
ghost use Rattle.std.specs.Cmp.Rules.{comparing, hashing};
ghost use Rattle.std.proofs.Common.{rules};

use super::Query;

impl Query<u8> for u8 {
    ghost stands_for = { nat_eq };

    ghost respects_hash = { Prim.search (hashing, rules) };

    ghost respects_eq = { Prim.search (comparing, rules) };

    fn stands_for(&self, key: &u8) -> bool {
        *self == *key
    }
}

impl Query<u16> for u16 {
    ghost stands_for = { nat_eq };

    ghost respects_hash = { Prim.search (hashing, rules) };

    ghost respects_eq = { Prim.search (comparing, rules) };

    fn stands_for(&self, key: &u16) -> bool {
        *self == *key
    }
}

impl Query<u32> for u32 {
    ghost stands_for = { nat_eq };

    ghost respects_hash = { Prim.search (hashing, rules) };

    ghost respects_eq = { Prim.search (comparing, rules) };

    fn stands_for(&self, key: &u32) -> bool {
        *self == *key
    }
}

impl Query<u64> for u64 {
    ghost stands_for = { nat_eq };

    ghost respects_hash = { Prim.search (hashing, rules) };

    ghost respects_eq = { Prim.search (comparing, rules) };

    fn stands_for(&self, key: &u64) -> bool {
        *self == *key
    }
}

impl Query<u128> for u128 {
    ghost stands_for = { nat_eq };

    ghost respects_hash = { Prim.search (hashing, rules) };

    ghost respects_eq = { Prim.search (comparing, rules) };

    fn stands_for(&self, key: &u128) -> bool {
        *self == *key
    }
}

impl Query<usize> for usize {
    ghost stands_for = { nat_eq };

    ghost respects_hash = { Prim.search (hashing, rules) };

    ghost respects_eq = { Prim.search (comparing, rules) };

    fn stands_for(&self, key: &usize) -> bool {
        *self == *key
    }
}

impl Query<i8> for i8 {
    ghost stands_for = { int_eq };

    ghost respects_hash = { Prim.search (hashing, rules) };

    ghost respects_eq = { Prim.search (comparing, rules) };

    fn stands_for(&self, key: &i8) -> bool {
        *self == *key
    }
}

impl Query<i16> for i16 {
    ghost stands_for = { int_eq };

    ghost respects_hash = { Prim.search (hashing, rules) };

    ghost respects_eq = { Prim.search (comparing, rules) };

    fn stands_for(&self, key: &i16) -> bool {
        *self == *key
    }
}

impl Query<i32> for i32 {
    ghost stands_for = { int_eq };

    ghost respects_hash = { Prim.search (hashing, rules) };

    ghost respects_eq = { Prim.search (comparing, rules) };

    fn stands_for(&self, key: &i32) -> bool {
        *self == *key
    }
}

impl Query<i64> for i64 {
    ghost stands_for = { int_eq };

    ghost respects_hash = { Prim.search (hashing, rules) };

    ghost respects_eq = { Prim.search (comparing, rules) };

    fn stands_for(&self, key: &i64) -> bool {
        *self == *key
    }
}

impl Query<i128> for i128 {
    ghost stands_for = { int_eq };

    ghost respects_hash = { Prim.search (hashing, rules) };

    ghost respects_eq = { Prim.search (comparing, rules) };

    fn stands_for(&self, key: &i128) -> bool {
        *self == *key
    }
}

impl Query<isize> for isize {
    ghost stands_for = { int_eq };

    ghost respects_hash = { Prim.search (hashing, rules) };

    ghost respects_eq = { Prim.search (comparing, rules) };

    fn stands_for(&self, key: &isize) -> bool {
        *self == *key
    }
}

impl Query<char> for char {
    ghost stands_for = { nat_eq };

    ghost respects_hash = { Prim.search (hashing, rules) };

    ghost respects_eq = { Prim.search (comparing, rules) };

    fn stands_for(&self, key: &char) -> bool {
        *self == *key
    }
}

impl Query<bool> for bool {
    ghost stands_for = { beq };

    ghost respects_hash = { Prim.search (hashing, rules) };

    ghost respects_eq = { Prim.search (comparing, rules) };

    fn stands_for(&self, key: &bool) -> bool {
        *self == *key
    }
}
