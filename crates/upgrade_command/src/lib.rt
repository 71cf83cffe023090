//! The command `upgrade`: a certificate, rewritten in version 2 under another name.
#![tactic(auto)]

mod run;

pub use run::run_upgrade;
