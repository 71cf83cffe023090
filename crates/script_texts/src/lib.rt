//! Texts that should spell scripts: what is so of those that are read, and the line of one that
//! spells none.
#![tactic(auto)]

mod reading;
mod refused;

pub use reading::read_script;
pub use refused::refused_line;
