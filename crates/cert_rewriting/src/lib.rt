//! Items of a certificate, written to a new file in version 2.
#![tactic(auto)]

mod length;
mod writing;

pub use length::{MOST, spelled_length};
pub use writing::{WriteStop, write_items};
