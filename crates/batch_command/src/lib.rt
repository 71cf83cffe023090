//! `batch`: the goals of several scripts are proved over one set of workers.
#![tactic(auto)]

mod job;
mod lines;
mod read;
mod run;

pub use run::run_batch;
