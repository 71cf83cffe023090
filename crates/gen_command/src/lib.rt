//! The command `gen`: proves the made script of a degree, and prints its line.
#![tactic(auto)]

mod command;

pub use command::run_gen;
