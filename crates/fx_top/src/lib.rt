//! The top call of the prover: it reads the words of the command line, and runs the command that
//! they name.
#![tactic(auto)]

mod run;
mod wanted;

pub use run::fx_run;
