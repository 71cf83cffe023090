//! What nodes, claims and hints are at a point, exactly: values, numbers that are too wide, and the
//! lines that are printed.
#![tactic(auto)]

mod cases;
mod claims;
mod entries;
mod evaluation;
mod hints;
mod laws;
mod lines;
mod nodes;
mod place;
mod shown;
mod sides;
mod values;

pub use evaluation::{Judged, evaluate};
pub use laws::tests_are_told;
pub use place::{EvalStop, Place};
