//! The certificate steps of a box: a table of facts with the numbers of their steps, the log of
//! steps, and rounds that write at most two steps for a slot.
#![tactic(auto)]

mod ends;
mod gathering;
mod known;
mod laws;
mod log;
mod rounds;
mod scan;
mod starts;
mod sweeping;
mod swept;
mod tracing;
mod writing;

pub use known::Known;
pub use laws::boxes_are_short;
pub use tracing::{Traced, trace};
