//! The steps of a written certificate: what a box's steps are, and that they are accepted.
#![tactic(auto)]

mod laws;

pub use laws::{certificates_exist, rules_fit_steps, walks_move};
