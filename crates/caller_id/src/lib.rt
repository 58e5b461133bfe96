//! Callers of the map with one key, proved from its public contracts alone: laws that hold for several calls together.
//! The other callers are in `caller_bi` alone, since the maps are one text at three widths.
//!
//! A script makes these modules from the two-key text: change the latter, and then run `tests/widths --write` with the
//! changed files.
#![tactic(auto)]

mod finding;
mod laws;

pub use finding::{count_all, put_and_find, remove_and_find};
pub use laws::{
    all_given, equal_through_a_third, equal_to_itself, equal_to_the_same_items, equal_turned_round,
    extend_after_reserve, found_where_contained, insert_after_reserve, insert_all_after_reserve,
    length_is_exact, none_again, overwritten_length, remove_and_find_keys, reserve_keeps,
    shrink_keeps,
};
