// The records that a field keeps, and their small changes.
#![tactic(auto)]

pub mod entries;
pub mod keys;
pub mod tables;
