//! Facts on expressions: what they say of an assignment, their order and their meet.
#![tactic(auto)]

mod conclusion;
mod fact;
mod hint;
mod instance;
mod law;
mod order;
mod place;
mod relative;
mod size;

pub use fact::{Fact, Slot};
pub use hint::{HintMark, HintRow, Need};
pub use instance::Instance;
pub use law::{
    held_facts, meet_is_the_weakest_as_strong_as_both, sizes_within_an_interval,
    stronger_is_an_order, void_and_none_are_strongest,
};
pub use order::{meet, slot, stronger};
pub use place::FixPlace;
pub use relative::RelativeError;
pub use size::Size;
