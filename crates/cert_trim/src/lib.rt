//! Certificates without unused steps.
#![tactic(auto)]

mod behind;
mod certificate;
mod laws;
mod left;
mod numbering;
mod steps;
mod used;

pub use behind::trim_behind;
pub use certificate::{Trimmed, trim};
pub use laws::{leaves_are_trimmed, trimmed_are_accepted};
