//! Rules on bounds and absolute values: numbers 1 to 19 of the list.
#![tactic(auto)]

mod bounds;
mod laws;
mod quotients;
mod sizes;
mod values;

pub use bounds::{rule_1, rule_2, rule_3, rule_4, rule_5, rule_6, rule_7};
pub use laws::{rules_are_isotone, rules_are_sound, rules_stay_on_target};
pub use quotients::{rule_8, rule_9, rule_10};
pub use sizes::{rule_16, rule_17, rule_18, rule_19};
pub use values::{rule_11, rule_12, rule_13, rule_14, rule_15};
