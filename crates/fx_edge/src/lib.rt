//! The outside of the prover: folders, sinks, and small forms of both in memory; and the paths of
//! boxes, which many crates name.
#![tactic(auto)]

mod buffer;
mod calls;
mod disk;
mod files;
mod folder;
mod gate;
mod items;
mod ledger;
mod outside;
mod path;
mod sink;

pub use disk::{DiskFolder, StdSink};
pub use folder::{MemFolder, SureFolder};
pub use gate::{Gate, OpenGate};
pub use items::Items;
pub use ledger::Ledger;
pub use outside::{Failed, Folder, Sink};
pub use path::Path;
pub use sink::{MemSink, SureSink};
