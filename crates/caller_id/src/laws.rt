//! Laws that hold for several calls of the map together, for every item type and builder. Each function tests its law,
//! and its contract says that the law holds.
//!
//! Made by tests/widths from crates/caller_bi/src/laws.rt: change that file.
mod comparing;
mod finding;
mod leaving;
mod rooming;
mod walking;

pub use comparing::{
    equal_through_a_third, equal_to_itself, equal_to_the_same_items, equal_turned_round,
};
pub use finding::found_where_contained;
pub use leaving::{overwritten_length, remove_and_find_keys};
pub use rooming::{
    extend_after_reserve, insert_after_reserve, insert_all_after_reserve, reserve_keeps,
    shrink_keeps,
};
pub use walking::{all_given, length_is_exact, none_again};
