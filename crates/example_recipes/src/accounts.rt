//! Accounts: a transfer between two of them, by two look-ups and two updates.
ghost use Rattle.std.specs.Prelude.{◌≡◌, ◌≢◌, ◌==◌, ◌≤◌, ◌<◌, ◌+◌, ◌-◌, ◌^◌, ◌∷◌, true, false, Some, IsPermutation};
ghost use Rattle.std.proofs.Common.{rules};
ghost use Rattle.iddqd_bi.specs.Bag.{IsOnly};
ghost use Rattle.iddqd_bi.specs.Map.{bag};

use iddqd_bi::{BiHashItem, BiHashItemMut, BiHashMap};

/// An account, known by its number and by its holder.
#[derive(Clone, Copy)]
pub struct Account {
    pub number: u64,
    pub holder: u32,
    pub balance: u64,
}

impl BiHashItem for Account {
    type K1 = u64;

    type K2 = u32;

    ghost key1 = { λ a. a.number };

    ghost key2 = { λ a. a.holder };

    fn key1(&self) -> &u64 {
        &self.number
    }

    fn key2(&self) -> &u32 {
        &self.holder
    }
}

impl BiHashItemMut for Account {
    type Data = u64;

    ghost data_of = { λ a. a.balance };

    ghost put = { λ a b. record a { balance = b } };

    ghost keeps_key1 = { Prim.search rules };

    ghost keeps_key2 = { Prim.search rules };

    ghost put_shows = { Prim.search rules };

    fn data_mut(&mut self) -> &mut u64 {
        &mut self.balance
    }
}

/// Moves an amount from one account to another, and returns whether it did. If one of them is not there, if they are the
/// same, or if the first has less or the second cannot take so much, nothing changes.
pub fn transfer(accounts: &mut BiHashMap<Account>, from: u64, to: u64, amount: u64) -> bool
    ensures apart { result ≡ true → from ≢ to }
    ensures moved { result ≡ true → (a b : Account)
        × IsOnly (λ x. from == x.number) (bag accounts.old) (Some a)
        × IsOnly (λ x. to == x.number) (bag accounts.old) (Some b)
        × (amount ≤ a.balance)
        × IsPermutation (a ∷ b ∷ bag accounts.new)
        (record a { balance = a.balance - amount } ∷ record b { balance = b.balance + amount } ∷ bag accounts.old) }
    ensures kept { result ≡ false → accounts.new ≡ accounts.old }
    ensures granted { (a b : Account) → from ≢ to → IsOnly (λ x. from == x.number) (bag accounts.old) (Some a)
        → IsOnly (λ x. to == x.number) (bag accounts.old) (Some b)
        → amount ≤ a.balance → b.balance + amount < 2 ^ 64 → result ≡ true }
    ensures capacity { accounts.new.capacity ≡ accounts.old.capacity }
    ensures builder { accounts.new.builder ≡ accounts.old.builder }
{
    let Some(payer) = accounts.get1(&from).copied() else {
        return false;
    };
    let Some(payee) = accounts.get1(&to).copied() else {
        return false;
    };
    if from == to || payer.balance < amount || u64::MAX - amount < payee.balance {
        return false;
    }
    let less = payer.balance - amount;
    let more = payee.balance + amount;
    // No two accounts conflict, as a clause of this call says. So each update writes one account.
    let _ = accounts.len();
    accounts.update1(&from, |_payer| less);
    accounts.update1(&to, |_payee| more);
    true
}
