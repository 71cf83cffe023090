//! The answer of a tree by one thread.
ghost use Rattle.std.specs.Prelude.{◌≡◌, ◌<◌, ◌≤◌, ◌+◌, ◌-◌, ℕ, List, [], IsTrue, false, IfOk};
ghost use Rattle.std.specs.Prelude.{OnOk, MatchOption, length};
ghost use Rattle.box_tree.specs.Paths.{IsChild, IsPathOf};
ghost use Rattle.box_tree.specs.Pieces.{piece_count};
ghost use Rattle.box_tree.specs.Plans.{cut_at};
ghost use Rattle.bisect.specs.Trees.{tree_of, children};
ghost use Rattle.bisect.specs.Answers.{IsAnswer};
ghost use Rattle.bisect.specs.Walks.{StaysWithin, boxes_from, seen_by, with_one, after};

use crate::outcome::{Leaf, OpenLeaf, Outcome};
use crate::settler::{Posted, Settler, State, Verdict};
use box_tree::{Cut, Plan};
use fx_edge::{Items, Path};
use std::alloc::{AllocError, Global};

/// What was seen of the tree so far.
#[derive(Drop)]
pub struct Walk {
    /// How many boxes there were.
    pub boxes: u32,
    /// How many there may be.
    pub limit: u32,
    /// The first open leaf among them, with its goal.
    pub first: Option<(Path, u16)>,
    /// Their leaves, in the order of their paths.
    pub leaves: Vec<Leaf>,
}

/// Into how many boxes a box is cut that stands so. 0 says that it is a leaf.
pub fn children(cut: Cut, state: &State) -> u8
    ensures count { result ≡ children cut state.now }
    ensures pieces { result ≤ piece_count cut }
    ensures most { result ≤ 64 }
{
    match state {
        State::Void => 0,
        State::Settled(_) => match cut {
            Cut::Forced(_, _) => cut.pieces(),
            _ => 0,
        },
        State::Open(_) => cut.pieces(),
    }
}

impl Walk {
    // One box more, which is cut into so many.
    fn see(&mut self, path: Path, state: State, pieces: u8) -> Result<(), AllocError>
        requires { self.old.boxes < self.old.limit }
        ensures seen { OnOk result (seen_by self.new.boxes self.new.first self.new.leaves.items
            ≡ with_one (seen_by self.old.boxes self.old.first
            self.old.leaves.items) path state pieces) }
        ensures within { StaysWithin self.old self.new }
    {
        self.boxes += 1;
        if pieces > 0 {
            return Ok(());
        }
        if self.first.is_none() {
            if let State::Open(goal) = state {
                self.first = Some((path, goal));
            }
        }
        self.leaves.push(Leaf { path, state })?;
        Ok(())
    }
}

/// Walks over the box and those below it, each settled from the entry of the one above. No box is
/// cut that lies 36 cuts deep. False says that there are more boxes than the limit. Lack of memory
/// is the only error.
pub fn visit<'a, S: Settler>(
    alloc: Global,
    settler: &'a S,
    path: Path,
    parent: Option<&'a S::Entry>,
    area: &mut S::Area,
    walk: &mut Walk,
) -> Result<bool, AllocError>
    requires bottom { (p : List ℕ) → 36 ≤ length p → piece_count (S.Entry.cut_at p) ≡ 0 }
    requires path { IsPathOf (λ p. piece_count (S.Entry.cut_at p)) path }
    requires parent { MatchOption parent (path ≡ []) (λ e. IsChild (S.Entry.path_of e.now) path) }
    requires depth { length path ≤ 36 }
    requires room { walk.old.boxes ≤ walk.old.limit }
    ensures seen { IfOk result (λ all. IsTrue all
        → seen_by walk.new.boxes walk.new.first walk.new.leaves.items
        ≡ after (tree_of S.Entry.cut_at S.Entry.state_at)
        (seen_by walk.old.boxes walk.old.first walk.old.leaves.items)
        (boxes_from (tree_of S.Entry.cut_at S.Entry.state_at) (36 - length path) path)) }
    ensures over { IfOk result (λ all. all ≡ false → walk.old.limit < walk.old.boxes
        + length (boxes_from (tree_of S.Entry.cut_at S.Entry.state_at) (36 - length path) path)) }
    ensures within { StaysWithin walk.old walk.new }
{
    if walk.boxes == walk.limit {
        return Ok(false);
    }
    let Verdict { entry, state, cut } = settler.settle(alloc, &path, parent, area)?;
    let count = children(cut, &state);
    walk.see(path, state, count)?;
    for i in 0..count {
        if !visit(alloc, settler, path.child(i), Some(&entry), area, walk)? {
            return Ok(false);
        }
    }
    Ok(true)
}

/// The answer of the tree, by this thread alone. The plan is that of the settler's entries.
pub fn run_alone<S: Settler>(
    alloc: Global,
    settler: &S,
    plan: &Plan,
    boxes: u32,
) -> Result<Outcome, AllocError>
    requires plan { (path : List ℕ) → cut_at plan.now path ≡ S.Entry.cut_at path }
    ensures { IfOk result (IsAnswer (tree_of S.Entry.cut_at S.Entry.state_at) boxes) }
{
    plan.laws();
    let mut walk = Walk {
        boxes: 0,
        limit: boxes,
        first: None,
        leaves: Vec::new(alloc),
    };
    let parent: Option<&S::Entry> = None;
    let mut area = settler.area(alloc);
    if !visit(alloc, settler, Path::root(), parent, &mut area, &mut walk)? {
        return Ok(Outcome::BoxLimit);
    }
    match walk.first {
        Some((path, goal)) => Ok(Outcome::Unproved {
            boxes: walk.boxes,
            leaf: OpenLeaf {
                case: 0,
                path,
                goal,
            },
        }),
        None => Ok(Outcome::Leaves {
            boxes: walk.boxes,
            leaves: Items::from_vec(walk.leaves),
        }),
    }
}
