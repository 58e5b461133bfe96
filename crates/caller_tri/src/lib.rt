//! Callers of the map with three keys, proved from its public contracts alone: laws that hold for several calls
//! together, a table of sessions, and the insert of a batch, which the table calls. The other callers are in
//! `caller_bi` alone, since both maps are one text at two widths.
//!
//! A script makes `laws` and `loading` from the two-key text: change the latter, and then run `tests/widths --write`
//! with the changed files.
#![tactic(auto)]

mod laws;
mod loading;
mod sessions;

pub use laws::{
    all_given, equal_through_a_third, equal_to_itself, equal_to_the_same_items, equal_turned_round,
    extend_after_reserve, found1_where_contained, found2_where_contained, found3_where_contained,
    insert_after_reserve, insert_all_after_reserve, length_is_exact, none_again,
    overwritten_length, remove_unique_and_find_keys, remove1_and_find_keys, remove2_and_find_keys,
    remove3_and_find_keys, reserve_keeps, shrink_keeps, unique_where_all, unique_where_contained,
};
pub use loading::load;
pub use sessions::{Session, by_token, close_of_user, open, open_all};
