//! Exact evaluation of a script at one point: what its claims and its hints are there.
#![tactic(auto)]

mod evaluation;
mod laws;
mod point;

pub use evaluation::evaluate;
pub use laws::meeting_is_told;
pub use point::Point;
