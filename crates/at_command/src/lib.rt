//! The command `at`: evaluates a script exactly at one point, and prints what its claims and hints
//! are there.
#![tactic(auto)]

mod command;
mod laws;
mod lines;
mod point;

pub use command::run_at;
pub use laws::{at_answers_are_one, meeting_points_meet};
