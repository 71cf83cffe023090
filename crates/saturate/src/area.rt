//! Memory that a thread keeps from box to box.
use crate::kept::{Table, Tables};
use crate::sweep::SweepWork;
use crate::work::Work;
use std::alloc::Global;

/// Memory for the rounds of a box, which a thread hands from box to box; so a box asks for its own
/// table alone. What it holds doesn't matter to any call.
#[derive(Drop)]
pub struct Area {
    // What memory is asked of.
    pub(crate) alloc: Global,
    // The tables of a round. Between boxes the first has no memory.
    pub(crate) tables: Tables,
    // What else rounds need.
    pub(crate) work: Work,
    // What sweeps need beside the second table.
    pub(crate) sweep: SweepWork,
}

impl Area {
    /// An area that has asked for no memory yet.
    pub fn new(alloc: Global) -> Area {
        Area {
            alloc,
            tables: Tables {
                now: Table::bare(alloc),
                next: Table::bare(alloc),
            },
            work: Work::new(alloc),
            sweep: SweepWork::new(alloc),
        }
    }
}
