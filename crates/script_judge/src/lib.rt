//! Why a text is no script: the first refusal.
#![tactic(auto)]

mod bounds;
mod counts;
mod fault;
mod first;
mod formula;
mod judge;
mod kinds;
mod names;
mod nesting;
mod numbers;
pub mod reading;
mod refusal;
mod sets;
mod sides;
mod splits;

pub use first::{faults_are_unique, first_of, firsts_are_unique};
pub use formula::{Formula, Front, fronts_are_read, read_front};
pub use judge::Judging;
pub use reading::{ReadText, reading_fault, reads_scripts};
pub use refusal::{LimitKind, Refusal, RefusalKind};
