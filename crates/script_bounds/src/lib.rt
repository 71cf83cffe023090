//! Bounds as they are written: the numbers that they stand for, and the intervals with ends on the
//! grid that stand for bounds of propositions.
#![tactic(auto)]

mod bound;
mod laws;
mod need;
mod numbers;

pub use bound::{inward, outward};
pub use laws::{inward_is_greatest, needs_are_enough, needs_are_exact, outward_is_least};
pub use need::{above, below};
pub use numbers::{down, is_too_low, read_number, up};
