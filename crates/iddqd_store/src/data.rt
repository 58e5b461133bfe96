//! Data of items that make or lend their keys.
ghost use Rattle.std.specs.Prelude.{◌≡◌, true, refl};
ghost use Rattle.std.specs.Borrow.{Lends, sem};
ghost use Rattle.std.proofs.Common.{rules};

use crate::lent::{ByPair, LendsPair};
use crate::made::{ByMade, Holds, MakesKey};

/// A value that makes or lends its keys, with data beside what they are made of. A caller may write the data while the
/// value is in a map, if `KeepsMade` or `KeepsPair` says of each key that it stays the same.
///
/// `Prim.search rules` proves the laws of all three where the data is a field of which no key is made.
///
/// ```text
/// ghost use Rattle.std.proofs.Common.{rules};
///
/// /// A service, known by its slot, which is computed, with how often it was used.
/// struct Service { rack: u16, bay: u8, uses: u64 }
///
/// impl HasData for Service {
///     type Data = u64;
///     ghost data_of = { λ s. s.uses };
///     ghost put = { λ s n. record s { uses = n } };
///     fn data_mut(&mut self) -> &mut u64 { &mut self.uses }
///     ghost put_shows = { Prim.search rules };
/// }
///
/// impl KeepsMade<1> for Service {
///     ghost keeps_made = { Prim.search rules };
/// }
/// ```
pub trait HasData {
    /// The type of the data that can be written.
    type Data;

    // The data of a value, as contracts see it.
    ghost data_of: { Self → Self.Data };

    // The value with this data in place of its own.
    ghost put: { Self → Self.Data → Self };

    /// Returns the data, borrowed for writing.
    fn data_mut(&mut self) -> &mut Self::Data
        ensures value { result.now ≡ data_of self.old }
        ensures* writes_back { sem 𝓛 (Lends Self.row Self.Data.row self.entry result (put self.old)) };

    // With other data put in, its data is what was put in.
    ghost put_shows: { (x : Self) (d : Self.Data) → data_of (put x d) ≡ d };
}

/// A value that makes the same key whatever its data is.
pub trait KeepsMade<const RANK: usize>: MakesKey<RANK> + HasData {
    // With other data put in, the value makes the same key.
    ghost keeps_made: { (x : Self) (d : Self.Data) → Self.made (Self.put x d) ≡ Self.made x };
}

/// A value that lends the same parts whatever its data is.
pub trait KeepsPair<A, B, const RANK: usize>: LendsPair<A, B, RANK> + HasData {
    // With other data put in, the value lends the same parts.
    ghost keeps_pair: { (x : Self) (d : Self.Data) → Self.pair (Self.put x d) ≡ Self.pair x };
}

/// What holds a value with data, and is a key that stays equal whatever this data is: `ByMade` and `ByPair`. The trait is
/// public for contracts alone, and has no function. Nobody implements it by hand.
pub trait KeepsKey: Holds + HasData + Eq
where
    Self::Held: HasData<Data = Self::Data>,
{
    // With other data put in, the key is equal to the old one.
    ghost keeps_key: { (x : Self) (d : Self.Data) → Self.eq (Self.put x d) x ≡ true };

    // The data is that of what is held.
    ghost held_put: { (x : Self) (d : Self.Data) → Self.held (Self.put x d) ≡ Self.Held.put (Self.held x) d };
}

impl<T: HasData, const RANK: usize> HasData for ByMade<T, RANK> {
    type Data = T::Data;

    ghost data_of = { λ x. T.data_of x };

    ghost put = { λ x d. T.put x d };

    fn data_mut(&mut self) -> &mut T::Data {
        self.value.data_mut()
    }

    ghost put_shows = { λ x d. T.put_shows x d };
}

impl<T: HasData, A, B, const RANK: usize> HasData for ByPair<T, A, B, RANK> {
    type Data = T::Data;

    ghost data_of = { λ x. T.data_of x };

    ghost put = { λ x d. T.put x d };

    fn data_mut(&mut self) -> &mut T::Data {
        self.value.data_mut()
    }

    ghost put_shows = { λ x d. T.put_shows x d };
}

impl<T: KeepsMade<RANK>, const RANK: usize, const OTHER: usize> KeepsMade<RANK>
    for ByMade<T, OTHER> {
    ghost keeps_made = { λ x d. T.keeps_made x d };
}

impl<T: KeepsMade<RANK>, A, B, const RANK: usize, const OTHER: usize> KeepsMade<RANK>
    for ByPair<T, A, B, OTHER> {
    ghost keeps_made = { λ x d. T.keeps_made x d };
}

impl<T: KeepsPair<A, B, RANK>, A, B, const RANK: usize, const OTHER: usize> KeepsPair<A, B, RANK>
    for ByMade<T, OTHER> {
    ghost keeps_pair = { λ x d. T.keeps_pair x d };
}

impl<T: KeepsPair<A, B, RANK>, A, B, C, D, const RANK: usize, const OTHER: usize> KeepsPair<
    A,
    B,
    RANK,
> for ByPair<T, C, D, OTHER> {
    ghost keeps_pair = { λ x d. T.keeps_pair x d };
}

impl<T: KeepsMade<RANK>, const RANK: usize> KeepsKey for ByMade<T, RANK> {
    ghost keeps_key = { λ x d. rw (T.keeps_made x d) (T.Made.Eq.laws.refl (T.made x)) };

    ghost held_put = { λ x d. refl };
}

impl<T: KeepsPair<A, B, RANK>, A: Eq, B: Eq, const RANK: usize> KeepsKey for ByPair<T, A, B, RANK> {
    ghost keeps_key = { Prim.search (rules, T.keeps_pair, A.Eq.laws, B.Eq.laws) };

    ghost held_put = { λ x d. refl };
}
