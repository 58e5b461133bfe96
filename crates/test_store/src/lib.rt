//! Tests of the parts that maps are built from: worked rows, and what no clause says.
#![tactic(auto)]

#[cfg(test)]
mod short_lists;
#[cfg(test)]
mod slots;
#[cfg(test)]
mod tables;
