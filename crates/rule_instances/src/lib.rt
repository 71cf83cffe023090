//! Which rules can be used on which facts: the instances of the rules over given expressions and
//! pairs.
#![tactic(auto)]

mod all;
mod differences;
mod hints;
mod laws;
mod nodes;
mod rows;
mod sides;

pub use all::instances_of;
pub use laws::shrinking_has_its_neighbour;
