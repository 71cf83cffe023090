//! What is true of the assignments that meet a script, over its nodes and over those of its
//! universe.
#![tactic(auto)]

mod laws;

pub use laws::{
    goals_are_true, nodes_keep_what_is_said, some_case_is_met, universes_extend,
    what_is_given_is_true, what_is_written_is_true, what_is_written_names_nodes,
};
