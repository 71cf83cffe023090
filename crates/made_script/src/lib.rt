//! The made script: a polynomial in Horner's form whose operations are rounded, against the exact
//! one.
#![tactic(auto)]

mod options;
mod script;

pub use options::made_options;
pub use script::{made_script, polynomials_are_nested};
