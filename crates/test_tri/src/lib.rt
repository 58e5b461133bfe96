//! Tests of the map with three keys on items of other types than that of `test_calls`.
#![tactic(auto)]

mod row;

pub use row::{Row, row_of};

#[cfg(test)]
mod building;
#[cfg(test)]
mod copies;
#[cfg(test)]
mod debug;
#[cfg(test)]
mod pointers;
#[cfg(test)]
mod queries;
#[cfg(test)]
mod std_traits;
