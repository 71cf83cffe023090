//! The one list of shared expression nodes, in which each is made of earlier ones.
#![tactic(auto)]

mod dag;
mod key;
mod laws;

pub use dag::{Dag, DagFault};
pub use fx_model::{Direction, ExprId, Node, Rounding};
pub use laws::values_stay;
