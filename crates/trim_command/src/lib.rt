//! The command `trim`: writes a certificate of a script anew, without its unused steps.
#![tactic(auto)]

mod answer;
mod command;
mod laws;
mod lines;
mod stop;
mod writing;

pub use command::run_trim;
