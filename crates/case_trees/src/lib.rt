//! Several trees of boxes, one for each case, and their one answer.
#![tactic(auto)]

mod gathered;
mod laws;

pub use gathered::Gathered;
pub use laws::{cases_answer_once, cases_are_told, lines_cover_cases, trees_are_gathered};
