//! Whole scripts: exactly what a text spells, or its one refusal.
#![tactic(auto)]

// What callers name of the crates below.
pub use script_judge::{LimitKind, Refusal, RefusalKind};

mod counts;
mod hints;
mod judgement;
mod laws;
mod reading;
mod script;

pub use judgement::first_refusal;
pub use laws::{
    script_or_refusal, scripts_are_read, spelled_are_read, spelled_are_short,
    spelled_have_few_cases, spelled_have_few_constraints, spelled_have_few_goals,
    spelled_have_few_hints, spelled_have_ranges, spelled_name_nodes,
};
pub use reading::{ParseStop, parse};
pub use script::Script;
