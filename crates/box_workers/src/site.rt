//! What all workers of a run share.
ghost use Rattle.std.specs.Prelude.{◌≡◌, ◌≤◌, ℕ, List, IfOk, MatchOption, length, [], None, IsTrue};
ghost use Rattle.std.specs.Prelude.{false, ◌<◌, ◌+◌};
ghost use Rattle.box_tree.specs.Paths.{IsChild, IsPathOf};
ghost use Rattle.box_tree.specs.Pieces.{piece_count};
ghost use Rattle.box_tree.specs.Plans.{cut_at};
ghost use Rattle.bisect.specs.Trees.{children, tree_of};
ghost use Rattle.bisect.specs.Walks.{IsListed, StaysWithin};
ghost use Rattle.box_workers.specs.Gathered.{Went, below, nothing};

use crate::counts::Counts;
use crate::record::Record;
use crate::task::BoxTask;
use bisect::{Posted, Settler, State, Verdict, Walk, boxes_are_listed, children, visit, walks_see};
use box_tree::{Cut, Plan};
use fact_board::{Board, Token};
use fx_edge::{Gate, Path};
use std::alloc::{AllocError, Global};
use std::marker::Model;
use std::sync::Wait;

/// What all workers of a run share. Contracts see the board's name. Its type keeps that the plan is
/// that of the entries.
#[derive(Drop)]
pub struct Site<'a, S: Settler, G: Gate> {
    alloc: Global,
    settler: &'a S,
    gate: &'a G,
    plan: &'a Plan,
    board: &'a Board<S::Entry>,
    counts: &'a Counts,
}

impl<'a, S: Settler, G: Gate> Model for Site<'a, S, G> {
    ghost use Rattle.std.specs.Prelude.{◌≡◌, ℕ, List};
    ghost use Rattle.boxcar.specs.Table.{Shelves, shelves_coded};
    ghost use Rattle.box_tree.specs.Plans.{cut_at};

    ghost Value = { Shelves };

    ghost coded = { shelves_coded };

    ghost view = { λ s. s.board.now };

    ghost invariant = { λ s. (p : List ℕ) → cut_at s.plan.now p ≡ S.Entry.cut_at p };
}

impl<'a, S: Settler, G: Gate> Site<'a, S, G> {
    /// The plan is that of the settler's entries.
    pub fn new(
        alloc: Global,
        settler: &'a S,
        gate: &'a G,
        plan: &'a Plan,
        board: &'a Board<S::Entry>,
        counts: &'a Counts,
    ) -> Site<'a, S, G>
        requires { (p : List ℕ) → cut_at plan.now p ≡ S.Entry.cut_at p }
        ensures { result ≡ board.now }
    {
        Site {
            alloc,
            settler,
            gate,
            plan,
            board,
            counts,
        }
    }

    // Settles the box of the task, from its parent's entry on the board.
    pub(crate) fn settle(
        &self,
        task: &BoxTask<S::Entry>,
        area: &mut S::Area,
    ) -> Result<Verdict<S::Entry>, AllocError>
        requires { MatchOption task.now.parent (Unit {0}) (λ s. s.board ≡ self.now) }
        ensures entry { IfOk result (λ v. S.Entry.path_of v.entry ≡ task.now.path) }
        ensures state { IfOk result (λ v. v.state ≡ S.Entry.state_at task.now.path) }
        ensures cut { IfOk result (λ v. v.cut ≡ S.Entry.cut_at task.now.path) }
    {
        self.gate.enter(&task.path);
        let parent = match &task.parent {
            Some(token) => Some(self.board.read(token)),
            None => None,
        };
        let verdict = self.settler.settle(self.alloc, &task.path, parent, area);
        self.gate.leave(&task.path);
        verdict
    }

    // An area for one worker.
    pub(crate) fn area(&self) -> S::Area {
        self.settler.area(self.alloc)
    }

    // A second token of an entry of the board.
    pub(crate) fn token(&self, token: &Token<S::Entry>) -> Result<Token<S::Entry>, AllocError>
        requires { token.now.board ≡ self.now }
        ensures { IfOk result (λ second. second ≡ token.now) }
    {
        self.board.again(token)
    }

    // Publishes an entry.
    pub(crate) fn publish<R: Wait>(
        &self,
        rt: &R,
        entry: S::Entry,
    ) -> Result<Token<S::Entry>, AllocError>
        ensures { IfOk result (λ token. (token.board ≡ self.now) × (token.entry ≡ entry)) }
    {
        match self.board.publish(rt, entry) {
            Ok(token) => Ok(token),
            Err(_) => Err(AllocError),
        }
    }

    // Into how many boxes the box is cut that has this cut.
    pub(crate) fn children(&self, path: &Path, cut: Cut, state: &State) -> u8
        requires { cut ≡ S.Entry.cut_at path.now }
        ensures count { result ≡ children (S.Entry.cut_at path.now) state.now }
        ensures pieces { result ≤ piece_count (S.Entry.cut_at path.now) }
        ensures most { result ≤ 64 }
        ensures bottom { 36 ≤ length path.now → result ≡ 0 }
    {
        let _ = path;
        self.plan.laws();
        children(cut, state)
    }

    // A child is about to be pushed.
    pub(crate) fn count_child(&self) {
        self.counts.join();
    }

    // A box was settled, split or held.
    pub(crate) fn count_done(&self) {
        self.counts.leave();
    }

    // No box waits or is in a hand, as far as the count says.
    pub(crate) fn is_over(&self) -> bool {
        self.counts.is_zero()
    }

    // Lets time pass, after so many turns in a row in which a worker found no box.
    pub(crate) fn rest<R: Wait>(&self, rt: &R, turns: u64) {
        self.counts.rest(rt, turns);
    }

    // A record of nothing.
    pub(crate) fn no_record(&self) -> Record<S::Entry>
        ensures { (result.settled.items ≡ []) × (result.split.items ≡ []) × (result.held ≡ None) }
    {
        Record {
            settled: Vec::new(self.alloc),
            split: Vec::new(self.alloc),
            held: None,
        }
    }

    // Walks over the box of the path and those below it, from its parent's entry. False says that
    // there are more boxes than the limit.
    pub(crate) fn visit(
        &self,
        path: Path,
        parent: Option<&Token<S::Entry>>,
        walk: &mut Walk,
    ) -> Result<bool, AllocError>
        requires path { IsPathOf (λ p. piece_count (S.Entry.cut_at p)) path }
        requires parent { MatchOption parent (path ≡ [])
            (λ s. (s.now.board ≡ self.now) × IsChild (S.Entry.path_of s.now.entry) path) }
        requires room { walk.old.boxes ≤ walk.old.limit }
        ensures all { IfOk result (λ all. IsTrue all
            → Went (tree_of S.Entry.cut_at S.Entry.state_at) walk.old.boxes walk.old.leaves.items
            walk.new.boxes walk.new.leaves.items
            (λ g. below (tree_of S.Entry.cut_at S.Entry.state_at) g path) nothing) }
        ensures over { IfOk result (λ all. all ≡ false → walk.old.limit < walk.old.boxes
            + below (tree_of S.Entry.cut_at S.Entry.state_at) (λ _. 1) path) }
        ensures within { StaysWithin walk.old walk.new }
    {
        self.plan.laws();
        walks_see();
        let parent = match parent {
            Some(token) => Some(self.board.read(token)),
            None => None,
        };
        let mut area = self.area();
        visit(self.alloc, self.settler, path, parent, &mut area, walk)
    }

    // Into how many pieces the box is cut.
    pub(crate) fn pieces(&self, path: &Path) -> u8
        ensures count { result ≡ piece_count (S.Entry.cut_at path.now) }
        ensures most { result ≤ 64 }
        ensures bottom { 36 ≤ length path.now → result ≡ 0 }
    {
        self.plan.cut(path).pieces()
    }

    // Nothing is done. The clause says which list of boxes a walk goes over.
    pub(crate) fn laws(&self)
        ensures { IsListed (tree_of S.Entry.cut_at S.Entry.state_at) }
    {
        self.plan.laws();
        boxes_are_listed();
    }

    // A walk that has seen nothing.
    pub(crate) fn walk(&self, limit: u32) -> Walk
        ensures { (result.boxes ≡ 0) × (result.limit ≡ limit) × (result.leaves.items ≡ []) }
    {
        Walk {
            boxes: 0,
            limit,
            first: None,
            leaves: Vec::new(self.alloc),
        }
    }
}
