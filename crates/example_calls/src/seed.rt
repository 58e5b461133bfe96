//! A map with a random seed, for keys that attackers may choose: they cannot foresee which keys have equal hashes.
ghost use Rattle.std.specs.Prelude.{◌≡◌, [], IfOk};
ghost use Rattle.iddqd_id.specs.Map.{bag};

use iddqd_id::{IdHashItem, IdHashMap};
use std::hash::RandomState;
use std::io;
use std::random::RandomSource;

/// The login of a user, known by its token, which comes from outside.
#[derive(Drop)]
pub struct Login {
    pub token: u64,
    pub user: u32,
}

impl IdHashItem for Login {
    type Key = u64;

    ghost key = { λ l. l.token };

    fn key(&self) -> &u64 {
        &self.token
    }
}

/// Makes a map without logins, with a seed that is drawn now.
pub fn no_logins(
    rt: &(impl AllocGlobal + RandomSource),
) -> io::Result<IdHashMap<Login, RandomState>>
    ensures { IfOk result (λ logins. bag logins ≡ []) }
{
    Ok(IdHashMap::with_hasher(rt.alloc(), RandomState::new(rt)?))
}
