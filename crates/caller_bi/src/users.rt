//! A registry of users, who are known by a number and by a login.
ghost use Rattle.std.specs.Prelude.{◌≡◌, ◌<◌, [], ◌∷◌, ◌++◌, nat_eq, string_bytes, length, All, IsOk, IsPermutation, OnOk, OnErr, IfErr, Some, filter, option_copied};
ghost use Rattle.std.specs.Bool.{OnTrue, OnFalse};
ghost use Rattle.std.specs.Cmp.Lexicographic.{pointwise};
ghost use Rattle.std.specs.Option.{option_to_list};
ghost use Rattle.iddqd_bi.specs.Bag.{IsOnly, conflicts_of, listing};
ghost use Rattle.iddqd_bi.specs.Callers.{IsRejected};
ghost use Rattle.iddqd_bi.specs.Map.{bag};

use crate::loading::load;
use iddqd_bi::{BiHashItem, BiHashMap, Entry, InsertReason, Ranked};

/// A user.
#[derive(Drop)]
pub struct User {
    id: u64,
    login: String,
}

impl BiHashItem for User {
    type K1 = u64;

    type K2 = String;

    ghost key1 = { λ u. u.id };

    ghost key2 = { λ u. u.login };

    fn key1(&self) -> &u64 {
        &self.id
    }

    fn key2(&self) -> &String {
        &self.login
    }
}

/// Registers a user, or returns the user if the number or the login is taken, or if there is no memory.
pub fn register(users: &mut BiHashMap<User>, user: User) -> Result<(), User>
    ensures registered { OnOk result (IsPermutation (bag users.new) (user ∷ bag users.old)) }
    ensures granted { conflicts_of ⟦<User as Ranked>⟧.ranks (bag users.old) user ≡ []
        → length (bag users.old) < users.old.capacity → IsOk result }
    ensures handed_back { IfErr result (λ u. u ≡ user) }
    ensures unchanged { OnErr result (users.new ≡ users.old) }
{
    match users.insert_unique(user) {
        Ok(()) => Ok(()),
        Err(refusal) => Err(refusal.into_item()),
    }
}

/// Registers all of these users, each of whom is then found by the login, or none of them. The error is the first user
/// who conflicts with a registered one or with an earlier one of the list, or for whom there was no memory.
pub fn register_all(users: &mut BiHashMap<User>, batch: Vec<User>) -> Result<(), User>
    ensures registered { OnOk result (IsPermutation (bag users.new) (batch.items ++ bag users.old)) }
    ensures found { OnOk result (All (λ u.
        IsOnly (λ v. ⟦<String as PartialEq>⟧.eq u.login v.login) (bag users.new) (Some u)) batch.items) }
    ensures unchanged { OnErr result (IsPermutation (bag users.new) (bag users.old)) }
    ensures rejected { IfErr result (λ u. (reason : InsertReason)
        × IsRejected ⟦<User as Ranked>⟧.ranks (bag users.old) batch.items u reason) }
{
    match load(users, batch) {
        Ok(()) => Ok(()),
        Err((user, _reason)) => Err(user),
    }
}

/// Returns the user with this login, if there is one.
pub fn by_login<'u>(users: &'u BiHashMap<User>, login: &String) -> Option<&'u User>
    ensures { option_to_list (option_copied result)
        ≡ filter (λ u. ⟦<String as PartialEq>⟧.eq login.now u.login) (bag users.now) }
{
    users.get2(login)
}

/// Removes the user with this number and the user with this login, who may be the same. Returns whether there was one.
pub fn unregister(users: &mut BiHashMap<User>, id: u64, login: &str) -> bool
    ensures gone { OnTrue result (IsPermutation (bag users.old) (listing
        ((λ u. nat_eq id u.id) ∷ (λ u. pointwise nat_eq login.now (string_bytes u.login)) ∷ [])
        (bag users.old) ++ bag users.new)) }
    ensures absent { OnFalse result (listing
        ((λ u. nat_eq id u.id) ∷ (λ u. pointwise nat_eq login.now (string_bytes u.login)) ∷ [])
        (bag users.old) ≡ []) }
    ensures unchanged { OnFalse result (users.new ≡ users.old) }
{
    match users.entry(&id, login) {
        Entry::Vacant(_free) => return false,
        Entry::Occupied(found) => {
            let _gone = found.remove();
            return true;
        }
    }
}

/// Registers a user whose number and login are these, unless one of them is taken. Returns whether the user was registered.
pub fn register_as(users: &mut BiHashMap<User>, id: u64, login: &str, user: User) -> bool
    ensures registered { OnTrue result (IsPermutation (bag users.new) (user ∷ bag users.old)) }
    ensures unchanged { OnFalse result (users.new ≡ users.old) }
{
    match users.entry(&id, login) {
        Entry::Vacant(free) => match free.insert(user) {
            Ok(_lent) => return true,
            Err(_e) => return false,
        },
        Entry::Occupied(_found) => return false,
    }
}
