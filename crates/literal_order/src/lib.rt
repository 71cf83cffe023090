//! Literals with their signs: their exact order, and the least intervals around them.
#![tactic(auto)]

mod order;
mod wide;
mod written;

pub use written::Written;
