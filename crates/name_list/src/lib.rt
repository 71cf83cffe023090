//! Lists of names: one name a line, or where a list is at fault.
#![tactic(auto)]

mod fault;
mod laws;
mod lines;
mod names;

pub use fault::{ListFault, ListKind, ListStop};
pub use laws::{fronts_decide, list_faults_are_one};
pub use names::read_list;
