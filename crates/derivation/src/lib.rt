//! Derivations of facts from rules, what is known at a box, and what the box comes to: definitions
//! and laws.
#![tactic(auto)]

mod laws;

pub use laws::{
    best_tables_exist, boxes_come_to_one_state, known_facts_are_of_sets, known_facts_hold,
};
