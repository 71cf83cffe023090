//! A board on which entries are published once, and read by their tokens on any thread.
#![tactic(auto)]

mod board;
mod threads;
mod token;

pub use board::Board;
pub use token::Token;
