//! Outward intervals: the least interval with grid ends that holds every result.
#![tactic(auto)]

mod beside;
mod ends;
mod interval;
mod laws;
mod literals;
mod multiples;
mod order;
mod products;
mod quotients;
mod single;
mod span;

pub use ends::opposite;
pub use interval::Interval;
pub use laws::one_result;
pub use literals::enclose;
