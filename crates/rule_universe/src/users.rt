//! Which instances take a slot.

ghost use Rattle.std.specs.Prelude.{◌≡◌, ◌↔◌, ◌⊎◌, ◌<◌, ◌≤◌, ◌-◌, ℕ, List, [], IsTrue, length, map};
ghost use Rattle.std.specs.Prelude.{IfOk, OnOk, slice_get, Some};
ghost use Rattle.pair_closure.specs.Reached.{Has};
ghost use Rattle.rule_universe.specs.Places.{IsPlace, place_count};
ghost use Rattle.rule_universe.specs.Rows.{AreUpTo, RowsUpTo, IsAdded, IsPlaceOfOne, AreRows};

use crate::places::{place_count, place_of};
use expr_dag::Dag;
use facts::{Instance, Slot};
use pair_closure::PairIndex;
use std::alloc::{AllocError, Global};

// Whether a number is the last of a row.
fn is_last(row: &[u32], k: u32) -> bool
    ensures { IsTrue result ↔ (slice_get row.now (length row.now - 1) ≡ Some k) }
{
    match row.last() {
        Some(last) => *last == k,
        None => false,
    }
}

// Puts a number behind those of a row, where it isn't the last.
fn add(row: &mut Vec<u32>, k: u32) -> Result<(), AllocError>
    requires { AreUpTo k row.old.items }
    ensures rows { OnOk result (AreUpTo k row.new.items) }
    ensures added { OnOk result ((j : ℕ) → Has row.new.items j ↔ (Has row.old.items j ⊎ (j ≡ k))) }
{
    if is_last(row, k) {
        return Ok(());
    }
    row.push(k)?;
    Ok(())
}

// Puts a number into a row.
fn put(rows: &mut Vec<Vec<u32>>, p: usize, k: u32) -> Result<(), AllocError>
    requires place { p < length rows.old.items }
    requires up_to { RowsUpTo k (map (λ row. row.items) rows.old.items) }
    ensures count { length rows.new.items ≡ length rows.old.items }
    ensures rows { OnOk result (RowsUpTo k (map (λ row. row.items) rows.new.items)) }
    ensures added { OnOk result (IsAdded (map (λ row. row.items) rows.old.items)
        (map (λ row. row.items) rows.new.items) k (λ q. q ≡ p)) }
{
    add(&mut rows[p], k)
}

// Puts a number into the row of a slot, if it has one.
fn add_slot(
    rows: &mut Vec<Vec<u32>>,
    nodes: &Dag,
    pairs: &PairIndex,
    s: Slot,
    k: u32,
) -> Result<(), AllocError>
    requires few { length pairs.now ≤ 1024 }
    requires places { length rows.old.items ≡ place_count (length nodes.now) pairs.now }
    requires up_to { RowsUpTo k (map (λ row. row.items) rows.old.items) }
    ensures count { length rows.new.items ≡ length rows.old.items }
    ensures rows { OnOk result (RowsUpTo k (map (λ row. row.items) rows.new.items)) }
    ensures added { OnOk result (IsAdded (map (λ row. row.items) rows.old.items)
        (map (λ row. row.items) rows.new.items) k (IsPlace (length nodes.now) pairs.now s)) }
{
    pairs.laws();
    match place_of(nodes, pairs, s) {
        Some(p) => put(rows, p, k),
        None => Ok(()),
    }
}

// Puts an instance's number into the rows of its premises.
fn add_instance(
    rows: &mut Vec<Vec<u32>>,
    nodes: &Dag,
    pairs: &PairIndex,
    premises: &[Slot],
    k: u32,
) -> Result<(), AllocError>
    requires few { length pairs.now ≤ 1024 }
    requires places { length rows.old.items ≡ place_count (length nodes.now) pairs.now }
    requires up_to { RowsUpTo k (map (λ row. row.items) rows.old.items) }
    ensures count { length rows.new.items ≡ length rows.old.items }
    ensures rows { OnOk result (RowsUpTo k (map (λ row. row.items) rows.new.items)) }
    ensures added { OnOk result
        (IsAdded (map (λ row. row.items) rows.old.items) (map (λ row. row.items) rows.new.items) k
        (IsPlaceOfOne (length nodes.now) pairs.now premises.now)) }
{
    for s in premises {
        add_slot(rows, nodes, pairs, *s, k)?;
    }
    Ok(())
}

// A row of nothing for each place.
fn blank_rows(alloc: Global, nodes: &Dag, pairs: &PairIndex) -> Result<Vec<Vec<u32>>, AllocError>
    requires few { length pairs.now ≤ 1024 }
    ensures count { IfOk result
        (λ rows. length rows.items ≡ place_count (length nodes.now) pairs.now) }
    ensures blank { IfOk result (λ rows. (p : ℕ) (row : List ℕ)
        → slice_get (map (λ row. row.items) rows.items) p ≡ Some row → row ≡ []) }
{
    let mut rows = Vec::new(alloc);
    for _ in 0..place_count(nodes, pairs) {
        rows.push(Vec::new(alloc))?;
    }
    Ok(rows)
}

/// A row for each place, with the numbers of the instances that have a premise there.
pub fn user_rows(
    alloc: Global,
    nodes: &Dag,
    pairs: &PairIndex,
    instances: &[Instance],
) -> Result<Vec<Vec<u32>>, AllocError>
    requires few { length pairs.now ≤ 1024 }
    ensures { IfOk result (λ rows. AreRows (length nodes.now) pairs.now instances.now
        (length instances.now) (map (λ row. row.items) rows.items)) }
{
    let mut rows = blank_rows(alloc, nodes, pairs)?;
    if instances.len() > u32::MAX as usize {
        return Err(AllocError);
    }
    for k in 0..instances.len() {
        add_instance(
            &mut rows,
            nodes,
            pairs,
            instances[k].premises.as_slice(),
            k as u32,
        )?;
    }
    Ok(rows)
}
