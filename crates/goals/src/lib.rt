//! What a goal wants, which facts settle it, and the line that is printed of it.
#![tactic(auto)]

mod goal;
mod laws;
mod line;

pub use goal::{Goal, Want, has_wanted, settles};
pub use laws::{lines_hold, settling_facts};
pub use line::Line;
