//! `prove`: the goals of a script are proved, and where it is asked for, their certificate is
//! written.
#![tactic(auto)]

mod certify;
mod run;

pub use run::run_prove;
