//! What a program's script says of its runs.
#![tactic(auto)]

mod laws;

pub use laws::no_run_wraps;
