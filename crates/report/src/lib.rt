//! The printed lines, exactly, as bytes.
#![tactic(auto)]

pub mod certificates;
mod joined;
pub mod parts;
pub mod proved;
pub mod refusals;
pub mod runs;
pub mod unproved;
