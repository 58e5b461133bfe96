//! The hash maps that a `Sorted` may have inside. Each module serves one of them, and may be left out with it.
pub(crate) mod one_key;
pub(crate) mod three_keys;
pub(crate) mod two_keys;
