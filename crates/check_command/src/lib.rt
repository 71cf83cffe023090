//! The command `check`: checks a certificate of a script, and prints the lines that it shows.
#![tactic(auto)]

mod check;
mod command;
mod laws;

pub use command::run_check;
pub use laws::check_answers_are_one;
