//! The pairs that are found, each once.

ghost use Rattle.std.specs.Prelude.{◌≡◌, ◌<◌, ◌↔◌, Some, [], length, slice_get, OnOk, IfOk};
ghost use Rattle.pair_closure.specs.Grown.{IsGrown};
ghost use Rattle.pair_closure.specs.Reached.{Has, IsEachOnce};
ghost use Rattle.pair_closure.specs.Closure.{Pair as Sides, AreBelow, AreRising};
ghost use Rattle.pair_closure.specs.Among.{is_among, IsPlaceOf};

use crate::pair::Pair;
use fx_model::ExprId;
use indexmap::IndexSet;
use std::alloc::{AllocError, Global};
use std::marker::Model;

/// Pairs of expressions, each once, in the order in which they were found or, after `sort`, by
/// rising sides.
#[derive(Drop)]
pub struct PairSet {
    set: IndexSet<Pair>,
}

impl Model for PairSet {
    ghost use Rattle.std.specs.Prelude.{List};
    ghost use Rattle.pair_closure.specs.Closure.{Pair as Sides};
    ghost use Rattle.pair_closure.specs.Reached.{IsEachOnce};

    ghost Value = { List Sides };

    ghost view = { λ pairs. pairs.set.keys };

    ghost invariant = { λ pairs. IsEachOnce pairs.set.keys };
}

impl PairSet {
    /// No pairs.
    pub fn new(alloc: Global) -> PairSet
        ensures { result ≡ [] }
    {
        PairSet {
            set: IndexSet::new(alloc),
        }
    }

    /// Adds a pair that isn't there. `Err` only where memory runs out.
    pub fn add(&mut self, first: ExprId, second: ExprId) -> Result<(), AllocError>
        ensures { OnOk result (IsGrown self.old self.new (λ p. p ≡ (first, second))) }
    {
        self.set.insert_full(Pair::new(first, second))?;
        Ok(())
    }

    /// Puts the pairs in order, by rising sides. `Err` only where memory runs out.
    pub fn sort(&mut self) -> Result<(), AllocError>
        requires { AreBelow 65536 self.old }
        ensures rising { OnOk result (AreRising self.new) }
        ensures same { (p : Sides) → Has self.new p ↔ Has self.old p }
        ensures count { length self.new ≡ length self.old }
    {
        self.set.sort_by_key(|pair| pair.rank())
    }

    /// The pair at a place that is taken.
    pub fn pair(&self, place: usize) -> (ExprId, ExprId)
        requires { place < length self.now }
        ensures { slice_get self.now place ≡ Some result }
    {
        self.set.as_slice()[place].sides()
    }

    /// The pair at a place, if there is one.
    pub fn get(&self, place: usize) -> Option<(ExprId, ExprId)>
        ensures { result ≡ slice_get self.now place }
    {
        match self.set.get_index(place) {
            Some(pair) => Some(pair.sides()),
            None => None,
        }
    }

    /// Whether a pair is there.
    pub fn has(&self, first: ExprId, second: ExprId) -> bool
        ensures { result ≡ is_among self.now (first, second) }
    {
        self.set.contains(&Pair::new(first, second))
    }

    /// Where a pair stands, if it is there.
    pub fn place(&self, first: ExprId, second: ExprId) -> Option<usize>
        ensures { IsPlaceOf self.now (first, second) result }
    {
        self.set.get_index_of(&Pair::new(first, second))
    }

    /// The pairs in a list of their own. `Err` only where memory runs out.
    pub fn to_vec(&self, alloc: Global) -> Result<Vec<(ExprId, ExprId)>, AllocError>
        ensures { IfOk result (λ list. list.items ≡ self.now) }
    {
        let mut list = Vec::new(alloc);
        for i in 0..self.len() {
            list.push(self.pair(i))?;
        }
        Ok(list)
    }

    /// Nothing is done. The clause tells a caller that no pair is there twice.
    pub fn laws(&self)
        ensures { IsEachOnce self.now }
    {
        let _set = &self.set;
    }

    /// How many pairs there are.
    pub fn len(&self) -> usize
        ensures { result ≡ length self.now }
    {
        self.set.len()
    }
}
