//! Callers of the maps, one module for each need. docs/CALLING.md and the pages that it names show each module whole.
#![tactic(auto)]

pub mod artifacts;
pub mod badges;
pub mod batch;
pub mod bookings;
pub mod builder;
pub mod clone;
pub mod counts;
pub mod desks;
pub mod entry;
pub mod extract;
pub mod gauges;
pub mod grants;
pub mod groups;
pub mod health;
pub mod hosts;
pub mod hub;
pub mod names;
pub mod overwrite;
pub mod peers;
pub mod queries;
pub mod refusals;
pub mod retain;
pub mod seed;
pub mod services;
pub mod settings;
pub mod sleds;
pub mod traits;
pub mod updates;
pub mod volumes;
pub mod walk;
