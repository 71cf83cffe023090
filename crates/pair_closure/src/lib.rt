//! Which pairs of expressions are compared, and which expressions that takes.
#![tactic(auto)]

mod closure;
mod differences;
mod follow;
mod index;
mod laws;
mod order;
mod pair;
mod pairs;

pub use closure::{Closure, ClosureFault, closure_of};
pub use index::PairIndex;
pub use laws::closures_are_one;
pub use pairs::PairSet;
