//! The reading of points: a number for each variable of a script, as a text writes them.
#![tactic(auto)]

mod fault;
mod laws;
mod reading;

pub use fault::{PointFault, PointKind, PointStop};
pub use laws::points_are_one;
pub use reading::read_point;
