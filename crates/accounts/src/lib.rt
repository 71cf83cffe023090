//! What became of each box, as a plain machine over events.
#![tactic(auto)]

mod book;
mod cuts;
mod event;
mod laws;
mod machine;
mod plan;
mod start;

pub use cuts::Cuts;
pub use event::{Event, EventRefused};
pub use laws::{
    balanced_accounts, boxes_cover, each_is_pushed_once, is_balanced, published_are_open,
    ranges_are_covered, settled_are_leaves,
};
pub use machine::Core;
