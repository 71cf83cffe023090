//! What every command's run is: how it ends, what it prints and leaves, and what is seen of that.
#![tactic(auto)]

mod printing;
mod status;

pub use printing::{print, print_stop, read_fault_line};
pub use status::Status;
