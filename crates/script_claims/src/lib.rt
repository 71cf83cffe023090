//! What the propositions of a formula claim, with their bounds as they are written.
#![tactic(auto)]

mod claim;
mod claims;
mod laws;
mod numbers;
mod part;
mod proposition;
mod range;
mod reader;
mod sides;

pub use claim::Claim;
pub use claims::{facts_of, goals_of};
pub use laws::{
    claims_only_grow, formulas_are_read, goals_are_enough, hypotheses_hold, parts_have_hypotheses,
};
pub use range::{SplitRange, is_less, split_range};
pub use reader::ClaimReader;
pub use sides::Sides;
