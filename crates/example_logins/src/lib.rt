//! A store of logins with expiry: each is known by its number and by its token, and they are in the order of the times at which
//! they were last seen.
#![tactic(auto)]

mod logins;

pub use logins::{Login, Logins, by_token, close_next, expire, oldest, open, seen_at, touch};
