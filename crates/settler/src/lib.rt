//! The engine on a script's boxes: each is settled by rounds over the script's universe, and so the
//! script has one answer.
#![tactic(auto)]

mod boxes;
mod cases;
mod entry;
mod frame;
mod job;
mod laws;
mod run;
mod trees;

pub use boxes::Boxes;
pub use cases::Case;
pub use entry::Entry;
pub use frame::Frame;
pub use job::Job;
pub use laws::{
    answers_are_one, one_case_is_all, open_leaves_are_first, plans_fit, proved_answers_hold,
    proved_lines_are_tight,
};
