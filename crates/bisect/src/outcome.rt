//! What trees of boxes come to.
use crate::settler::State;
use fx_edge::{Items, Path};

/// A box that isn't cut, and how it stands.
#[derive(Debug, Drop)]
pub struct Leaf {
    pub path: Path,
    pub state: State,
}

/// An open leaf: the number of its case, from 0, its path, and the first of its goals that isn't
/// settled, from 0. A leaf of one tree alone is of the first case.
#[derive(Clone, Copy, Debug, PartialEq, Eq)]
pub struct OpenLeaf {
    pub case: u8,
    pub path: Path,
    pub goal: u16,
}

/// What a tree of boxes comes to, or the trees of all cases together.
#[derive(Debug, Drop)]
pub enum Outcome {
    /// No leaf is open: the number of boxes of all trees, and their leaves, case by case in the
    /// order of their paths.
    Leaves { boxes: u32, leaves: Items<Leaf> },
    /// A leaf is open: the number of boxes of all trees, and the first open leaf of the first case
    /// that has one.
    Unproved { boxes: u32, leaf: OpenLeaf },
    /// All trees have more boxes than are allowed, whether a leaf is open or not.
    BoxLimit,
}
