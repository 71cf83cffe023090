//! What a script's hints say, read from the left.
#![tactic(auto)]

mod draft;
pub mod hint;
pub mod laws;
mod lists;
pub mod reader;
mod stage;
