//! Users, each known by a name.
ghost use Rattle.std.specs.Prelude.{◌≡◌, ◌<◌, ◌∷◌, [], Some, false, if◌then◌else◌, map, nat_eq, string_bytes, length, IsOk, IsPermutation, OnOk, OnErr, IfOk, IfErr, IfSome, IfNone, option_copied};
ghost use Rattle.std.specs.Cmp.Lexicographic.{pointwise};
ghost use Rattle.std.specs.List.{list_any};
ghost use Rattle.std.specs.String.{string_eq};
ghost use Rattle.std.proofs.Common.{rules};
ghost use Rattle.iddqd_id.specs.Bag.{IsOnly, conflicts_of};
ghost use Rattle.iddqd_id.specs.Map.{IsFullFor, bag};
ghost use Rattle.iddqd_id.specs.Rekeyed.{TellsWhyNot, refused_item};

use iddqd_id::{IdHashItem, IdHashItemMut, IdHashMap, NotReplaced, Ranked};

/// A user, and when they were last seen.
#[derive(Drop)]
pub struct User {
    pub name: String,
    pub seen: u64,
}

impl IdHashItem for User {
    type Key = String;

    ghost key = { λ u. u.name };

    fn key(&self) -> &String {
        &self.name
    }
}

impl IdHashItemMut for User {
    type Data = u64;

    ghost data_of = { λ u. u.seen };

    ghost put = { λ u d. record u { seen = d } };

    ghost keeps_key = { Prim.search rules };

    ghost put_shows = { Prim.search rules };

    fn data_mut(&mut self) -> &mut u64 {
        &mut self.seen
    }
}

/// Enters a user, or returns them if their name is taken, or if there is no memory.
pub fn enter(users: &mut IdHashMap<User>, user: User) -> Result<(), User>
    ensures went_in { OnOk result (IsPermutation (bag users.new) (user ∷ bag users.old)) }
    ensures granted { conflicts_of ⟦<User as Ranked>⟧.ranks (bag users.old) user ≡ []
        → length (bag users.old) < users.old.capacity → IsOk result }
    ensures handed_back { IfErr result (λ u. u ≡ user) }
    ensures reason { OnErr result (list_any (λ u. string_eq user.name u.name) (bag users.old) ≡ false
        → IsFullFor ⟦<User as Ranked>⟧.ranks users.old user) }
    ensures unchanged { OnErr result (users.new ≡ users.old) }
{
    users.try_insert(user).map_err(|rejected| rejected.item)
}

/// Returns the user of this name, if there is one.
pub fn find<'u>(users: &'u IdHashMap<User>, name: &str) -> Option<&'u User>
    ensures { IsOnly (λ u. pointwise nat_eq name.now (string_bytes u.name)) (bag users.now) (option_copied result) }
{
    users.get(name)
}

/// Notes when the user of this name was seen, and returns whether there is such a user.
pub fn note(users: &mut IdHashMap<User>, name: &str, time: u64) -> bool
    ensures noted { IsPermutation (bag users.new) (map (λ (u : User).
        if pointwise nat_eq name.now (string_bytes u.name) then record u { seen = time } else u) (bag users.old)) }
    ensures found { result ≡ list_any (λ u. pointwise nat_eq name.now (string_bytes u.name)) (bag users.old) }
    ensures absent { result ≡ false → users.new ≡ users.old }
{
    users.update(name, |_user| time)
}

/// Gives the user of this name another name, and returns them as they were. The error is `Absent` if there is no such user,
/// and `Duplicate` if another one has the new name.
pub fn rename(
    users: &mut IdHashMap<User>,
    name: &str,
    new: String,
) -> Result<User, NotReplaced<User>>
    ensures was { IfOk result (λ u. IsOnly (λ u. pointwise nat_eq name.now (string_bytes u.name)) (bag users.old) (Some u)) }
    ensures renamed { IfOk result (λ u. IsPermutation (u ∷ bag users.new)
        (record { name = new; seen = u.seen } ∷ bag users.old)) }
    ensures unchanged { OnErr result (users.new ≡ users.old) }
    ensures name { IfErr result (λ e. (refused_item e).name ≡ new) }
    // Which error it is depends on the new name, and not on the time.
    ensures reason { IfErr result (λ e. TellsWhyNot ⟦<User as Ranked>⟧.ranks
        (λ u. pointwise nat_eq name.now (string_bytes u.name)) (bag users.old) (record { name = new; seen = 0 }) e) }
{
    let seen = users.get(name).map_or(0, |user| user.seen);
    users.rekey(name, User { name: new, seen })
}

/// Removes the user of this name, and returns them, if there is one.
pub fn leave(users: &mut IdHashMap<User>, name: &str) -> Option<User>
    ensures it { IsOnly (λ u. pointwise nat_eq name.now (string_bytes u.name)) (bag users.old) result }
    ensures gone { IfSome result (λ u. IsPermutation (bag users.old) (u ∷ bag users.new)) }
    ensures absent { IfNone result (users.new ≡ users.old) }
{
    users.remove(name)
}
