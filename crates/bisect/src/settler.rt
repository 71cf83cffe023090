//! Who settles boxes.
ghost use Rattle.std.specs.Prelude.{◌≡◌, ℕ, List, [], IfOk, MatchOption};
ghost use Rattle.box_tree.specs.Paths.{IsChild, IsPathOf};
ghost use Rattle.box_tree.specs.Pieces.{piece_count};
ghost use Rattle.box_tree.specs.declared.cut.Cut.{Cut};
ghost use Rattle.bisect.specs.declared.settler.State.{State};

use box_tree::Cut;
use facts::Fact;
use fx_edge::{Items, Path};
use std::alloc::{AllocError, Global};

/// How a box stands.
#[derive(Debug, Drop)]
pub enum State {
    /// Each goal is settled. These are the strongest known facts of the goals, in their order.
    Settled(Items<Fact>),
    /// No assignment is left in the box.
    Void,
    /// The goal of this number, counted from 0, isn't settled; each before it is.
    Open(u16),
}

/// What is published of a box, for those that settle its pieces. One type of entries is one world:
/// it has one plan and one state for each path, and a type keeps of each entry that it is its
/// path's entry there.
pub trait Posted: Drop + Send + Sync {
    // The cut at each path.
    ghost cut_at: { List ℕ → Cut };

    // How the box at each path stands.
    ghost state_at: { List ℕ → State };

    // The path of the entry's box.
    ghost path_of: { Self → List ℕ };
}

/// What settling a box gives: its entry, how it stands, and its cut.
#[derive(Drop)]
pub struct Verdict<E: Drop> {
    pub entry: E,
    pub state: State,
    pub cut: Cut,
}

/// Settles boxes, each from the entry of the box that it is a piece of.
pub trait Settler: Sync {
    /// What is posted of a box that is settled.
    type Entry: Posted;

    /// Memory that a thread keeps from box to box; what it holds doesn't matter.
    type Area: Drop + Send + Sync;

    /// An area that has asked for no memory yet.
    fn area(&self, alloc: Global) -> Self::Area;

    /// Settles the box at the path, which is one of the plan. The parent is the entry of the path
    /// without its last number; there is none at the root. Lack of memory is the only error.
    fn settle(
        &self,
        alloc: Global,
        path: &Path,
        parent: Option<&Self::Entry>,
        area: &mut Self::Area,
    ) -> Result<Verdict<Self::Entry>, AllocError>
        requires path { IsPathOf (λ p. piece_count (Self.Entry.cut_at p)) path.now }
        requires parent { MatchOption parent (path.now ≡ [])
            (λ e. IsChild (Self.Entry.path_of e.now) path.now) }
        ensures entry { IfOk result (λ v. Self.Entry.path_of v.entry ≡ path.now) }
        ensures state { IfOk result (λ v. v.state ≡ Self.Entry.state_at path.now) }
        ensures cut { IfOk result (λ v. v.cut ≡ Self.Entry.cut_at path.now) };
}
