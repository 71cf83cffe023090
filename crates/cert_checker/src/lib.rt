//! The checker of certificates: which items are accepted, and the lines that they show.
#![tactic(auto)]

// What callers name of the crates below.
pub use goals::Line;

mod chain;
mod check;
mod conclude;
mod cuts;
mod fault;
mod given;
mod judge;
mod keep;
mod laws;
mod lines;
mod nodes;
mod open;
mod subject;

pub use chain::Chain;
pub use check::check_subject;
pub use fault::{CheckFault, CheckStop, TakeStop};
pub use given::Given;
pub use keep::{Accepted, accepted_items};
pub use laws::{
    accepted_lines_hold, bytes_are_accepted, each_case_has_its_root, items_are_judged_once,
};
pub use lines::Lines;
pub use subject::Subject;
