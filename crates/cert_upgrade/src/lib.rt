//! Certificates rewritten in version 2.
#![tactic(auto)]

mod laws;
mod respell;
mod rewriting;
mod stop;

pub use laws::items_are_one;
pub use rewriting::upgrade;
pub use stop::UpgradeStop;
