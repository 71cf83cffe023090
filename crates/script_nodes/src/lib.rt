//! The nodes of a script's expressions and definitions, read from the left.
#![tactic(auto)]

pub mod definitions;
pub mod digits;
mod expressions;
pub mod laws;
mod names;
pub mod reader;
mod signs;
pub mod waits;
mod words;
