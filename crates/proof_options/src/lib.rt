//! How a script is to be proved: the numbers of a run, in one type from the words to the engine.
#![tactic(auto)]

mod options;

pub use options::Options;
