//! Fixed-point programs, turned into scripts whose goals say that no step wraps.
#![tactic(auto)]

pub mod fault;
mod format;
mod judge;
mod lex;
mod part;
mod print;
mod program;
mod reader;
mod token;
pub mod turn;
mod word;
