//! What becomes of one box.
ghost use Rattle.std.specs.Prelude.{◌≡◌, ◌<◌, ◌≤◌, length, Some, None, MatchOption};
ghost use Rattle.box_tree.specs.Paths.{IsPathOf};
ghost use Rattle.box_tree.specs.Pieces.{piece_count};
ghost use Rattle.bisect.specs.Trees.{tree_of};
ghost use Rattle.box_workers.specs.Fates.{IsFate, Pushes, StopsAt, children_of};

use crate::site::Site;
use crate::task::BoxTask;
use bisect::{Leaf, Posted, Settler, Verdict};
use box_deques::{Lane, Naming};
use fact_board::{Board, Token};
use fx_edge::{Gate, Path};
use std::sync::Wait;

/// Why a box is held.
#[derive(Clone, Copy, Debug, PartialEq, Eq)]
pub enum HeldWhy {
    /// Lack of memory.
    Memory,
    /// The lane was pushed as many tasks as it can be.
    LaneFull,
}

/// A box that a worker could not finish.
#[derive(Drop)]
pub struct Held<E: Posted> {
    pub task: BoxTask<E>,
    /// The token of the box's own entry, where it was published.
    pub own: Option<Token<E>>,
    /// How many of its children were pushed.
    pub pushed: u8,
    pub why: HeldWhy,
}

/// What became of a box that was taken.
#[derive(Drop)]
pub enum Fate<E: Posted> {
    Settled(Leaf),
    Split(Path),
    Held(Held<E>),
}

// Pushes the children of a published box, in order. It gives how many were pushed, and why no more.
fn push_children<S: Settler, G: Gate, Q: Naming<Board<S::Entry>>>(
    site: &Site<'_, S, G>,
    lane: &mut Lane<BoxTask<S::Entry>, Q>,
    path: Path,
    own: &Token<S::Entry>,
    count: u8,
) -> (u8, Option<HeldWhy>)
    requires world { Q.world ≡ Some site.now }
    requires own { (own.now.board ≡ site.now) × (S.Entry.path_of own.now.entry ≡ path) }
    requires path { IsPathOf (λ p. piece_count (S.Entry.cut_at p)) path }
    requires room { length path < 36 }
    requires count { (count ≤ 64) × (count ≤ piece_count (S.Entry.cut_at path)) }
    ensures lane { Pushes lane.old lane.new (children_of path result.0) }
    ensures stop { StopsAt Q.capacity (length lane.new.pushed) count result.0 result.1 }
{
    for piece in 0..count {
        let Ok(token) = site.token(own) else {
            return (piece, Some(HeldWhy::Memory));
        };
        site.count_child();
        let Ok(()) = lane.push(BoxTask::piece(path, piece, token)) else {
            site.count_done();
            return (piece, Some(HeldWhy::LaneFull));
        };
    }
    (count, None)
}

// Settles a box that was taken, and where it is to be cut publishes its entry and pushes its
// children.
pub(crate) fn finish_box<S: Settler, G: Gate, Q: Naming<Board<S::Entry>>, R: Wait>(
    rt: &R,
    site: &Site<'_, S, G>,
    lane: &mut Lane<BoxTask<S::Entry>, Q>,
    task: BoxTask<S::Entry>,
    area: &mut S::Area,
) -> Fate<S::Entry>
    requires world { Q.world ≡ Some site.now }
    requires task { MatchOption task.parent (Unit {0}) (λ s. s.board ≡ site.now) }
    ensures { IsFate (tree_of S.Entry.cut_at S.Entry.state_at) S.Entry.path_of Q.capacity site.now
        lane.old lane.new task result }
{
    let path = task.path;
    let Ok(Verdict { entry, state, cut }) = site.settle(&task, area) else {
        return Fate::Held(Held {
            task,
            own: None,
            pushed: 0,
            why: HeldWhy::Memory,
        });
    };
    let count = site.children(&path, cut, &state);
    if count == 0 {
        return Fate::Settled(Leaf { path, state });
    }
    let Ok(own) = site.publish(rt, entry) else {
        return Fate::Held(Held {
            task,
            own: None,
            pushed: 0,
            why: HeldWhy::Memory,
        });
    };
    match push_children(site, lane, path, &own, count) {
        (_, None) => Fate::Split(path),
        (pushed, Some(why)) => Fate::Held(Held {
            task,
            own: Some(own),
            pushed,
            why,
        }),
    }
}
