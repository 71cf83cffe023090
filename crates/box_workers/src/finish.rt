//! What the caller finishes by itself, once all workers have ended.
ghost use Rattle.std.specs.Prelude.{◌≡◌, ◌<◌, ◌≤◌, ◌+◌, ◌-◌, All, IsTrue, false, true, IfOk};
ghost use Rattle.std.specs.Prelude.{MatchOption, length, ◌++◌};
ghost use Rattle.box_tree.specs.Paths.{IsPathOf};
ghost use Rattle.box_tree.specs.Pieces.{piece_count};
ghost use Rattle.bisect.specs.Trees.{tree_of};
ghost use Rattle.bisect.specs.Answers.{IsAnswer};
ghost use Rattle.bisect.specs.Walks.{StaysWithin};
ghost use Rattle.box_workers.specs.Gathered.{Went, below, held_rest, held_rest_of, record_rest};
ghost use Rattle.box_workers.specs.Gathered.{records_rest, left_rest, children_rest, nothing};
ghost use Rattle.box_workers.specs.Gathered.{IsAccount};
ghost use Rattle.box_workers.specs.Ends.{TaskFits, HeldFits, RecordFits};
ghost use Rattle.box_workers.specs.Seen as seen;

use crate::answer::{first_open, sort_leaves};
use crate::fate::Held;
use crate::record::Record;
use crate::site::Site;
use crate::task::BoxTask;
use bisect::{Leaf, OpenLeaf, Outcome, Settler, Walk};
use fact_board::Token;
use fx_edge::{Gate, Items, Path};
use std::alloc::AllocError;

// Does the box of a task, and those below it.
fn finish_task<S: Settler, G: Gate>(
    site: &Site<'_, S, G>,
    task: &BoxTask<S::Entry>,
    walk: &mut Walk,
) -> Result<bool, AllocError>
    requires task { TaskFits site.now task.now }
    requires room { walk.old.boxes ≤ walk.old.limit }
    ensures all { IfOk result (λ all. IsTrue all
        → Went (tree_of S.Entry.cut_at S.Entry.state_at) walk.old.boxes walk.old.leaves.items
        walk.new.boxes walk.new.leaves.items
        (λ g. below (tree_of S.Entry.cut_at S.Entry.state_at) g task.now.path) nothing) }
    ensures over { IfOk result (λ all. all ≡ false → walk.old.limit < walk.old.boxes
        + below (tree_of S.Entry.cut_at S.Entry.state_at) (λ _. 1) task.now.path) }
    ensures within { StaysWithin walk.old walk.new }
{
    site.visit(task.path, task.parent.as_ref(), walk)
}

// Does the boxes that were left, and those below them. False says that there are more boxes than
// the limit.
fn finish_left<S: Settler, G: Gate>(
    site: &Site<'_, S, G>,
    mut left: Vec<BoxTask<S::Entry>>,
    walk: &mut Walk,
) -> Result<bool, AllocError>
    requires tasks { All (TaskFits site.now) left.items }
    requires room { walk.old.boxes ≤ walk.old.limit }
    ensures all { IfOk result (λ all. IsTrue all
        → Went (tree_of S.Entry.cut_at S.Entry.state_at) walk.old.boxes walk.old.leaves.items
        walk.new.boxes walk.new.leaves.items
        (left_rest (tree_of S.Entry.cut_at S.Entry.state_at) left.items) nothing) }
    ensures over { IfOk result (λ all. all ≡ false → walk.old.limit < walk.old.boxes
        + left_rest (tree_of S.Entry.cut_at S.Entry.state_at) left.items (λ _. 1)) }
    ensures within { StaysWithin walk.old walk.new }
{
    while let Some(task) = left.pop() {
        if !finish_task(site, &task, walk)? {
            return Ok(false);
        }
    }
    Ok(true)
}

// Does the children of a published box, from one number on, and those below them.
fn finish_children<S: Settler, G: Gate>(
    site: &Site<'_, S, G>,
    path: Path,
    own: &Token<S::Entry>,
    first: u8,
    count: u8,
    walk: &mut Walk,
) -> Result<bool, AllocError>
    requires own { (own.now.board ≡ site.now) × (S.Entry.path_of own.now.entry ≡ path) }
    requires path { IsPathOf (λ p. piece_count (S.Entry.cut_at p)) path }
    requires depth { length path < 36 }
    requires count { (first ≤ count) × (count ≤ 64) × (count ≤ piece_count (S.Entry.cut_at path)) }
    requires room { walk.old.boxes ≤ walk.old.limit }
    ensures all { IfOk result (λ all. IsTrue all
        → Went (tree_of S.Entry.cut_at S.Entry.state_at) walk.old.boxes walk.old.leaves.items
        walk.new.boxes walk.new.leaves.items
        (children_rest (tree_of S.Entry.cut_at S.Entry.state_at) path first count) nothing) }
    ensures over { IfOk result (λ all. all ≡ false → walk.old.limit < walk.old.boxes
        + children_rest (tree_of S.Entry.cut_at S.Entry.state_at) path first count (λ _. 1)) }
    ensures within { StaysWithin walk.old walk.new }
{
    for piece in first..count {
        if !site.visit(path.child(piece), Some(own), walk)? {
            return Ok(false);
        }
    }
    Ok(true)
}

// Does what a worker did not of its held box, and the boxes below. False says that there are more
// boxes than the limit.
fn finish_held<S: Settler, G: Gate>(
    site: &Site<'_, S, G>,
    held: &Held<S::Entry>,
    walk: &mut Walk,
) -> Result<bool, AllocError>
    requires held { HeldFits
        (tree_of S.Entry.cut_at S.Entry.state_at) S.Entry.path_of site.now held.now }
    requires room { walk.old.boxes ≤ walk.old.limit }
    ensures all { IfOk result (λ all. IsTrue all
        → Went (tree_of S.Entry.cut_at S.Entry.state_at) walk.old.boxes walk.old.leaves.items
        walk.new.boxes walk.new.leaves.items
        (λ g. held_rest (tree_of S.Entry.cut_at S.Entry.state_at) g held.now) nothing) }
    ensures over { IfOk result (λ all. all ≡ false → walk.old.limit < walk.old.boxes
        + held_rest (tree_of S.Entry.cut_at S.Entry.state_at) (λ _. 1) held.now) }
    ensures within { StaysWithin walk.old walk.new }
{
    site.laws();
    let Some(own) = &held.own else {
        return finish_task(site, &held.task, walk);
    };
    if walk.boxes == walk.limit {
        return Ok(false);
    }
    walk.boxes += 1;
    let path = held.task.place();
    finish_children(site, path, own, held.pushed, site.pieces(&path), walk)
}

// Counts the boxes of a record, and takes over its leaves. False says that there are more boxes
// than the limit.
fn see_record(walk: &mut Walk, settled: &mut Vec<Leaf>, split: usize) -> Result<bool, AllocError>
    requires room { walk.old.boxes ≤ walk.old.limit }
    ensures all { IfOk result (λ all. IsTrue all
        → (walk.new.boxes ≡ walk.old.boxes + (length settled.old.items + split))
        × (walk.new.leaves.items ≡ walk.old.leaves.items ++ settled.old.items)) }
    ensures over { IfOk result (λ all. all ≡ false
        → walk.old.limit < walk.old.boxes + (length settled.old.items + split)) }
    ensures within { StaysWithin walk.old walk.new }
{
    let count = settled.len().saturating_add(split);
    if count > (walk.limit - walk.boxes) as usize {
        return Ok(false);
    }
    walk.leaves.append(settled)?;
    walk.boxes += count as u32;
    Ok(true)
}

// The same of a held box, if there is one.
fn finish_any_held<S: Settler, G: Gate>(
    site: &Site<'_, S, G>,
    held: &Option<Held<S::Entry>>,
    walk: &mut Walk,
) -> Result<bool, AllocError>
    requires held { MatchOption held.now (Unit {0})
        (HeldFits (tree_of S.Entry.cut_at S.Entry.state_at) S.Entry.path_of site.now) }
    requires room { walk.old.boxes ≤ walk.old.limit }
    ensures all { IfOk result (λ all. IsTrue all
        → Went (tree_of S.Entry.cut_at S.Entry.state_at) walk.old.boxes walk.old.leaves.items
        walk.new.boxes walk.new.leaves.items
        (λ g. held_rest_of (tree_of S.Entry.cut_at S.Entry.state_at) g held.now) nothing) }
    ensures over { IfOk result (λ all. all ≡ false → walk.old.limit < walk.old.boxes
        + held_rest_of (tree_of S.Entry.cut_at S.Entry.state_at) (λ _. 1) held.now) }
    ensures within { StaysWithin walk.old walk.new }
{
    match held {
        Some(held) => finish_held(site, held, walk),
        None => Ok(true),
    }
}

// Counts the boxes of a record, takes over its leaves, and does what is left of its held box.
fn finish_record<S: Settler, G: Gate>(
    site: &Site<'_, S, G>,
    done: Record<S::Entry>,
    walk: &mut Walk,
) -> Result<bool, AllocError>
    requires done { RecordFits
        (tree_of S.Entry.cut_at S.Entry.state_at) S.Entry.path_of site.now done }
    requires room { walk.old.boxes ≤ walk.old.limit }
    ensures all { IfOk result (λ all. IsTrue all
        → Went (tree_of S.Entry.cut_at S.Entry.state_at) walk.old.boxes walk.old.leaves.items
        walk.new.boxes walk.new.leaves.items
        (λ g. record_rest (tree_of S.Entry.cut_at S.Entry.state_at) g done) nothing) }
    ensures over { IfOk result (λ all. all ≡ false → walk.old.limit < walk.old.boxes
        + record_rest (tree_of S.Entry.cut_at S.Entry.state_at) (λ _. 1) done) }
    ensures within { StaysWithin walk.old walk.new }
{
    let Record {
        mut settled,
        split,
        held,
    } = done;
    if !see_record(walk, &mut settled, split.len())? {
        return Ok(false);
    }
    finish_any_held(site, &held, walk)
}

// All records. False says that there are more boxes than the limit.
fn finish_records<S: Settler, G: Gate>(
    site: &Site<'_, S, G>,
    mut records: Vec<Record<S::Entry>>,
    walk: &mut Walk,
) -> Result<bool, AllocError>
    requires records { All (RecordFits
        (tree_of S.Entry.cut_at S.Entry.state_at) S.Entry.path_of site.now) records.items }
    requires room { walk.old.boxes ≤ walk.old.limit }
    ensures all { IfOk result (λ all. IsTrue all
        → Went (tree_of S.Entry.cut_at S.Entry.state_at) walk.old.boxes walk.old.leaves.items
        walk.new.boxes walk.new.leaves.items
        (records_rest (tree_of S.Entry.cut_at S.Entry.state_at) records.items) nothing) }
    ensures over { IfOk result (λ all. all ≡ false → walk.old.limit < walk.old.boxes
        + records_rest (tree_of S.Entry.cut_at S.Entry.state_at) records.items (λ _. 1)) }
    ensures within { StaysWithin walk.old walk.new }
{
    while let Some(done) = records.pop() {
        if !finish_record(site, done, walk)? {
            return Ok(false);
        }
    }
    Ok(true)
}

/// What the tree comes to, once all workers have ended: the caller does by itself what their
/// records and lanes leave.
pub(crate) fn finish<S: Settler, G: Gate>(
    site: &Site<'_, S, G>,
    records: Vec<Record<S::Entry>>,
    left: Vec<BoxTask<S::Entry>>,
    limit: u32,
) -> Result<Outcome, AllocError>
    requires records { All (RecordFits
        (tree_of S.Entry.cut_at S.Entry.state_at) S.Entry.path_of site.now) records.items }
    requires left { All (TaskFits site.now) left.items }
    requires account { IsAccount
        (tree_of S.Entry.cut_at S.Entry.state_at) records.items left.items }
    ensures { IfOk result (IsAnswer (tree_of S.Entry.cut_at S.Entry.state_at) limit) }
{
    site.laws();
    let mut walk = site.walk(limit);
    if !finish_records(site, records, &mut walk)? {
        return Ok(Outcome::BoxLimit);
    }
    if !finish_left(site, left, &mut walk)? {
        return Ok(Outcome::BoxLimit);
    }
    sort_leaves(&mut walk.leaves);
    match first_open(walk.leaves.as_slice()) {
        Some(open) => Ok(Outcome::Unproved {
            boxes: walk.boxes,
            leaf: OpenLeaf {
                case: 0,
                path: open.0,
                goal: open.1,
            },
        }),
        None => Ok(Outcome::Leaves {
            boxes: walk.boxes,
            leaves: Items::from_vec(walk.leaves),
        }),
    }
}
