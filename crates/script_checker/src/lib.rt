//! Certificates of scripts: what a script asks of them, and what the lines of an accepted one say
//! of it.
#![tactic(auto)]

mod cases;
mod check;
mod items;
mod laws;
mod subject;

pub use check::check_script;
pub use items::script_items;
pub use laws::{accepted_lines_hold_of_scripts, checks_are_one};
pub use subject::subject_of;
