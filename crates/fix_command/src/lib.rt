//! The command `fix`: it reads a fixed-point program, and writes the script whose goals say that no
//! step wraps.
#![tactic(auto)]

mod fix;
mod lines;
mod turned;

pub use fix::run_fix;
