//! Callers of the map with two keys, proved from its public contracts alone.
//!
//! A script makes `laws` and `loading` of the three-key callers, in `caller_tri`, from the text here: change this one,
//! and then run `tests/widths --write` with the changed files. The other callers here have no three-key text, since
//! both maps are one text at two widths.
#![tactic(auto)]

mod asking;
mod building;
mod emptying;
mod entries;
mod finding;
mod inserting;
mod items;
mod keeping;
mod laws;
mod lent;
mod loading;
mod matching;
mod refusing;
mod updating;
mod users;
mod walking;
mod words;
mod writing;
mod written;

pub use asking::{
    by_key, by_query, define_at, entry_point, is_at, resolve, take_by_query, undefine,
};
pub use building::extend_by_vec;
pub use emptying::drained;
pub use entries::{
    NotEntered, insert_or_write, insert_through, modify_and_take, modify_both, modify_found,
    or_insert_and_write, overwrite_through, remove_through,
};
pub use finding::{count_all, put_and_find, remove_and_find};
pub use inserting::{count_conflicts, insert_both, insert_or_drop, overwrite_or_drop};
pub use items::{File, Symbol, Word};
pub use keeping::keep_and_count;
pub use laws::{
    all_given, equal_through_a_third, equal_to_itself, equal_to_the_same_items, equal_turned_round,
    extend_after_reserve, found1_where_contained, found2_where_contained, insert_after_reserve,
    insert_all_after_reserve, length_is_exact, none_again, overwritten_length,
    remove_unique_and_find_keys, remove1_and_find_keys, remove2_and_find_keys, reserve_keeps,
    shrink_keeps, unique_where_both, unique_where_contained,
};
pub use lent::{insert_held, write_by_key1, write_data1, write_held1};
pub use loading::load;
pub use matching::{Same, find_same};
pub use refusing::{
    NotAdded, add, add_and_count, add_by_from, add_by_map_err, add_or_count, is_added,
};
pub use updating::{note_all_opened, note_opened, set_all, set1};
pub use users::{User, by_login, register, register_all, register_as, unregister};
pub use walking::{count_by_walk, write_all, write_first, write_first_and_count};
pub use words::{add_word, forget_word, has_word};
pub use writing::{is_lent1, replace1, write1, write1_again, write1_and_tell, write1_twice};
pub use written::{write_and_ask1, write_and_remove1};
