//! Reads the text of a script as tokens and words.
#![tactic(auto)]

pub mod class;
pub mod digits;
pub mod laws;
pub mod lex;
pub mod list;
pub mod words;
