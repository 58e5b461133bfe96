//! A store whose items run out: each is known by a text, is touched when it is used, and goes once it was not used for long.
ghost use Rattle.std.specs.Prelude.{◌≡◌, ◌==◌, ◌+◌, false, filter, if◌then◌else◌, length, map, nat_eq, nat_le, string_bytes, IsPermutation};
ghost use Rattle.std.specs.Cmp.Lexicographic.{pointwise};
ghost use Rattle.std.specs.List.{list_any};
ghost use Rattle.std.proofs.Common.{rules};

use iddqd_bi::{BiHashItem, BiHashItemMut, BiHashMap};
use std::marker::Model;

/// A grant of access, known by its token and by its user, and when it was last used.
#[derive(Drop)]
pub struct Grant {
    pub token: String,
    pub user: u64,
    pub used: u64,
}

impl BiHashItem for Grant {
    type K1 = String;

    type K2 = u64;

    ghost key1 = { λ g. g.token };

    ghost key2 = { λ g. g.user };

    fn key1(&self) -> &String {
        &self.token
    }

    fn key2(&self) -> &u64 {
        &self.user
    }
}

impl BiHashItemMut for Grant {
    type Data = u64;

    ghost data_of = { λ g. g.used };

    ghost put = { λ g t. record g { used = t } };

    ghost keeps_key1 = { Prim.search rules };

    ghost keeps_key2 = { Prim.search rules };

    ghost put_shows = { Prim.search rules };

    fn data_mut(&mut self) -> &mut u64 {
        &mut self.used
    }
}

/// The grants of a server.
#[derive(Drop)]
pub struct Grants {
    map: BiHashMap<Grant>,
}

impl Model for Grants {
    ghost use Rattle.std.specs.Prelude.{List};
    ghost use Rattle.example_calls.specs.declared.grants.Grant.{Grant};
    ghost use Rattle.iddqd_bi.specs.Map.{bag};

    ghost Value = { List Grant };

    ghost view = { λ g. bag g.map };
}

impl Grants {
    /// Notes that the grant with this token was used, and returns whether there is such a grant.
    pub fn touch(&mut self, token: &str, now: u64) -> bool
        ensures touched { IsPermutation self.new (map (λ (g : Grant).
            if pointwise nat_eq token.now (string_bytes g.token) then record g { used = now } else g) self.old) }
        ensures found { result ≡ list_any (λ g. pointwise nat_eq token.now (string_bytes g.token)) self.old }
        ensures absent { result ≡ false → self.new ≡ self.old }
    {
        self.map.update1(token, |_grant| now)
    }

    /// Notes that the grant of this user was used, and returns whether there is such a grant.
    pub fn touch_user(&mut self, user: u64, now: u64) -> bool
        ensures touched { IsPermutation self.new (map (λ (g : Grant).
            if user == g.user then record g { used = now } else g) self.old) }
        ensures found { result ≡ list_any (λ g. user == g.user) self.old }
    {
        self.map.update2(&user, |_grant| now)
    }

    /// Ends the grants that were not used since this time, and returns how many these were.
    pub fn expire(&mut self, since: u64) -> usize
        ensures kept { IsPermutation self.new (filter (λ g. nat_le since g.used) self.old) }
        ensures count { result + length self.new ≡ length self.old }
    {
        let before = self.map.len();
        self.map.retain(|grant| grant.used >= since);
        before - self.map.len()
    }
}
