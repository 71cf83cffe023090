//! Parts of a formula as conjunctions of items, and their cases.
#![tactic(auto)]

mod conjunctions;
mod parts;

pub use conjunctions::Conjunctions;
pub use parts::Parts;
