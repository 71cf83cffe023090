//! What one lane was pushed, who took what, and what stayed.
use crate::{Items, Path};

/// The account of one closed lane.
#[derive(Debug, Drop)]
pub struct Ledger {
    /// The paths that the lane was pushed, first to last.
    pub pushes: Items<Path>,
    /// What was taken, in order of position: the worker's number and the path.
    pub takes: Items<(u8, Path)>,
    /// The paths that stayed, in order.
    pub left: Items<Path>,
}
