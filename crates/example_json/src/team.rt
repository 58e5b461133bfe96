//! A team of users, as JSON: a map with one key, which is a text.
use iddqd_id::{IdHashItem, IdHashMap};
use serde::{Deserialize, Serialize};
use serde_json::Error;
use std::alloc::Global;

/// A user, known by a name, and when they were last seen.
#[derive(Drop, Serialize, Deserialize)]
pub struct User {
    pub name: String,
    pub seen: u64,
}

impl IdHashItem for User {
    type Key = String;

    ghost key = { λ u. u.name };

    fn key(&self) -> &String {
        &self.name
    }
}

/// A team. In JSON its users are a list.
#[derive(Drop, Serialize, Deserialize)]
pub struct Team {
    #[serde(with = "iddqd_serde")]
    pub users: IdHashMap<User>,
}

/// Reads a team. If two of its users have an equal name, the error has the line and the column at which the second ends.
pub fn read_team(alloc: Global, text: &[u8]) -> Result<Team, Error> {
    serde_json::from_slice(alloc, text)
}

/// Writes a team.
pub fn write_team(alloc: Global, team: &Team) -> Result<String, Error> {
    serde_json::to_string(alloc, team)
}
