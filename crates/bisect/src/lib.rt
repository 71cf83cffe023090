//! Bisection: the answer of a tree of boxes.
#![tactic(auto)]

mod alone;
mod laws;
mod lines;
mod outcome;
mod settler;

pub use alone::{Walk, children, run_alone, visit};
pub use laws::{answers_are_told, boxes_are_listed, leaves_cover, one_answer, walks_see};
pub use lines::lines_of;
pub use outcome::{Leaf, OpenLeaf, Outcome};
pub use settler::{Posted, Settler, State, Verdict};
