//! Rules on multiples of powers of two, on values other than 0 and on roundings: numbers 21 to 28,
//! 31 to 36, 41 to 44 and 90 of the list.
#![tactic(auto)]

mod laws;
mod multiples;
mod nonzero;
mod places;
mod roundings;
mod shape;
mod shrinking;

pub use laws::{rules_are_isotone, rules_are_sound, rules_stay_on_target};
pub use multiples::{rule_21, rule_22, rule_23, rule_24, rule_25, rule_26, rule_27};
pub use nonzero::{rule_31, rule_32, rule_33, rule_34, rule_35, rule_36};
pub use roundings::{rule_41, rule_42, rule_43, rule_44};
pub use shrinking::{rule_28, rule_90};
