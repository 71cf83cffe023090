//! Roundings of grid numbers to the multiples of a power of two, and how far they move a number.
#![tactic(auto)]

mod bounds;
mod laws;
mod neighbours;
mod number;
mod round;
mod sign;

pub use bounds::error_interval;
pub use laws::{errors, floors, roundings};
pub use round::round_grid;
pub use sign::Sign;
