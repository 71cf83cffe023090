//! Exact fractions in lowest terms, of numbers below 2^127.
#![tactic(auto)]

mod comparing;
mod divisor;
mod exact;
mod literals;
mod narrow;
mod operations;
mod products;
mod roundings;
mod scaling;

pub use exact::Exact;
