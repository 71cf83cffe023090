//! Where a list of words leaves the grammar of scripts.
#![tactic(auto)]

pub mod due;
pub mod shape;
pub mod table;
