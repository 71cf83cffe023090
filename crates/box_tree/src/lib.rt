//! Where boxes are cut, and what their pieces are.
#![tactic(auto)]

mod boxes;
mod cut;
mod halves;
mod next;
mod plan;
mod points;
mod range;
mod region;
mod root;

pub use boxes::few_cuts_end;
pub use cut::Cut;
pub use plan::Plan;
pub use root::{hypotheses_are_in_the_box, pieces_are_of_hypotheses};
