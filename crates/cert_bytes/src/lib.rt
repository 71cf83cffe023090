//! The bytes of certificates: the items that they spell, one spelling for each, and where they
//! fail.
#![tactic(auto, using(crate::proofs::Fronts::front_then, crate::proofs::Fronts::same_front))]

mod based;
mod claims;
mod cut_points;
mod fault;
mod field;
mod fitting;
mod front;
mod item;
mod kept;
mod laws;
mod lists;
mod node;
mod number;
mod order;
mod pieces;
mod reader;
mod section;
mod source;
mod style;
mod writing;

pub use cut_points::CutPoints;
pub use fault::{CertFault, CertKind, Stop};
pub use fitting::item_fits;
pub use item::{Item, StepRow};
pub use laws::{certificates_are_spelled_once, spellings_are_short, spellings_read_back};
pub use order::DueItem;
pub use reader::Reader;
pub use style::{Seen, Style};
pub use writing::{write_item, write_item2};
