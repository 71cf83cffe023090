//! What derivations use: expressions, pairs, hypotheses, goals, rows of hints and rule instances,
//! with an index from each slot to the instances that take it.
#![tactic(auto)]

mod flat_rows;
mod order;
mod placed;
mod places;
mod universe;
mod users;

pub use placed::Placed;
pub use universe::Universe;
