//! The pairs, with the second sides of each first side.

ghost use Rattle.std.specs.Prelude.{◌≡◌, ◌<◌, ◌↔◌, ◌++◌, ◌∷◌, [], List, length, vec_len, map, IfOk};
ghost use Rattle.std.specs.Prelude.{OnOk};
ghost use Rattle.fx_model.specs.declared.ExprId.{ExprId};
ghost use Rattle.pair_closure.specs.Reached.{Has, IsEachOnce};
ghost use Rattle.pair_closure.specs.Among.{is_among, IsPlaceOf};
ghost use Rattle.pair_closure.specs.Closure.{Pair as Sides, AreBelow};
ghost use Rattle.pair_closure.specs.Rows.{seconds, IsIndexed};

use crate::pairs::PairSet;
use fx_model::ExprId;
use std::alloc::{AllocError, Global};
use std::marker::Model;

/// Pairs, each once, and for each first side its second ones.
#[derive(Drop)]
pub struct PairIndex {
    pairs: PairSet,
    rows: Vec<Vec<ExprId>>,
}

impl Model for PairIndex {
    ghost use Rattle.std.specs.Prelude.{List, map};
    ghost use Rattle.pair_closure.specs.Closure.{Pair as Sides};
    ghost use Rattle.pair_closure.specs.Rows.{IsIndexed};

    ghost Value = { List Sides };

    ghost view = { λ index. index.pairs };

    ghost invariant = { λ index. IsIndexed index.pairs (map (λ row. row.items) index.rows.items) };
}

// An empty row for each of n first sides.
fn blank_rows(alloc: Global, n: u16) -> Result<Vec<Vec<ExprId>>, AllocError>
    ensures count { IfOk result (λ rows. vec_len rows ≡ n) }
    ensures blank { IfOk result (λ rows. IsIndexed [] (map (λ row. row.items) rows.items)) }
{
    let mut rows = Vec::new(alloc);
    for _ in 0..n {
        rows.push(Vec::new(alloc))?;
    }
    Ok(rows)
}

// Puts b into the row of a.
fn put(rows: &mut Vec<Vec<ExprId>>, a: ExprId, b: ExprId) -> Result<(), AllocError>
    requires { a.0 < vec_len rows.old }
    ensures count { vec_len rows.new ≡ vec_len rows.old }
    ensures put { OnOk result ((pairs : List Sides)
        → IsIndexed pairs (map (λ row. row.items) rows.old.items)
        → IsIndexed (pairs ++ (a, b) ∷ []) (map (λ row. row.items) rows.new.items)) }
{
    rows[a.0 as usize].push(b)?;
    Ok(())
}

// The rows of all pairs, whose first sides are below n.
fn rows_of(alloc: Global, pairs: &PairSet, n: u16) -> Result<Vec<Vec<ExprId>>, AllocError>
    requires { AreBelow n pairs.now }
    ensures { IfOk result (λ rows. IsIndexed pairs.now (map (λ row. row.items) rows.items)) }
{
    let mut rows = blank_rows(alloc, n)?;
    for i in 0..pairs.len() {
        let (a, b) = pairs.pair(i);
        put(&mut rows, a, b)?;
    }
    Ok(rows)
}

impl PairIndex {
    /// The pairs with an index of their first sides, which are below n.
    pub fn new(alloc: Global, pairs: PairSet, n: u16) -> Result<PairIndex, AllocError>
        requires { AreBelow n pairs }
        ensures { IfOk result (λ index. index ≡ pairs) }
    {
        let rows = rows_of(alloc, &pairs, n)?;
        Ok(PairIndex { pairs, rows })
    }

    /// The pairs.
    pub fn pairs(&self) -> &PairSet
        ensures { result.now ≡ self.now }
    {
        &self.pairs
    }

    /// Where the pair stands, if it is there.
    pub fn place(&self, first: ExprId, second: ExprId) -> Option<usize>
        ensures { IsPlaceOf self.now (first, second) result }
    {
        self.pairs.place(first, second)
    }

    /// How many pairs there are.
    pub fn len(&self) -> usize
        ensures { result ≡ length self.now }
    {
        self.pairs.len()
    }

    /// The pairs in a list of their own.
    pub fn to_vec(&self, alloc: Global) -> Result<Vec<(ExprId, ExprId)>, AllocError>
        ensures { IfOk result (λ list. list.items ≡ self.now) }
    {
        self.pairs.to_vec(alloc)
    }

    /// Nothing is done. The clause tells a caller that no pair is there twice.
    pub fn laws(&self)
        ensures { IsEachOnce self.now }
    {
        self.pairs.laws();
    }

    /// Whether the pair is there.
    pub fn has(&self, first: ExprId, second: ExprId) -> bool
        ensures { result ≡ is_among self.now (first, second) }
    {
        self.pairs.has(first, second)
    }

    /// The second sides of the pairs with this first side, each once, in the order of the pairs.
    pub fn beside(&self, first: ExprId) -> &[ExprId]
        ensures list { result.now ≡ seconds self.now first }
        ensures once { IsEachOnce result.now }
        ensures sides { (b : ExprId) → Has result.now b ↔ Has self.now (first, b) }
    {
        self.pairs.laws();
        match self.rows.get(first.0 as usize) {
            Some(row) => row.as_slice(),
            None => &[],
        }
    }
}
