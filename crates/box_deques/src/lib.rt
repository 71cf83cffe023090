//! Work-stealing lanes whose ledger says who took what.
#![tactic(auto)]

pub mod close;
pub mod hand;
pub mod lane;
pub mod pool_hands;
pub mod rule;
pub mod task;
pub mod thief;
mod threads;

pub use close::LaneEnd;
pub use hand::{Hand, Seat};
pub use lane::{Lane, pool};
pub use pool_hands::hands;
pub use task::{Naming, Task};
pub use thief::Thief;
