//! Jobs by number, done by workers: each takes jobs from its own lane and from those of the others.
#![tactic(auto)]

mod gather;
mod job;
mod post;
mod start;
mod take;
mod task;
mod workers;

pub use job::Job;
pub use workers::run_jobs;
