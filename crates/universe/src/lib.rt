//! The universe of a script: the expressions, pairs and rule instances that derivations may use.
#![tactic(auto)]

mod laws;
mod marks;
mod starts;
mod world;

pub use facts::Instance;
pub use laws::{hypotheses_have_slots, universes_are_one};
pub use marks::classify;
pub use rule_universe::Universe;
pub use starts::starting_pairs;
pub use world::{UniverseFault, assume, build};
