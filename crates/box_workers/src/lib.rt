//! Workers that share the boxes of a tree: each takes boxes from its lane and from those of the
//! others.
#![tactic(auto)]

mod answer;
mod counts;
mod fate;
mod finish;
mod join;
mod post;
mod record;
mod site;
mod start;
mod take;
mod task;
mod workers;

pub use counts::Counts;
pub use fate::{Held, HeldWhy};
pub use record::{Record, work};
pub use site::Site;
pub use task::BoxTask;
pub use workers::run;
