//! Trees whose answers come one after the other.
ghost use Rattle.std.specs.Prelude.{◌≡◌, ◌≢◌, ◌<◌, ◌≤◌, IsTrue, false, IfOk};
ghost use Rattle.case_trees.specs.Gathered.{IsWithin, boxes_left, end_of, nothing_seen};
ghost use Rattle.case_trees.specs.Gathered.{with_outcome};

use bisect::{Leaf, OpenLeaf, Outcome};
use fx_edge::Items;
use std::alloc::{AllocError, Global};
use std::marker::Model;

/// What the trees of the cases so far have come to.
#[derive(Drop)]
pub struct Gathered {
    // How many cases there were.
    cases: u8,
    // How many boxes their trees have, and how many all may have.
    boxes: u32,
    limit: u32,
    // The first open leaf.
    first: Option<OpenLeaf>,
    // The leaves, as long as none is open.
    leaves: Vec<Leaf>,
}

impl Model for Gathered {
    ghost use Rattle.std.specs.Prelude.{◌≤◌};
    ghost use Rattle.std.specs.Coded.{codes};
    ghost use Rattle.bisect.specs.contracts.outcome.Leaf as leaf_row;
    ghost use Rattle.bisect.specs.contracts.outcome.OpenLeaf as open_row;
    ghost use Rattle.case_trees.specs.Gathered.{Seen};

    ghost Value = { Seen };

    ghost coded = { Prim.hlevel (codes, leaf_row.the_row.coded, open_row.the_row.coded) };

    ghost view = { λ g. record {
      cases = g.cases;
      boxes = g.boxes;
      limit = g.limit;
      first = g.first;
      leaves = g.leaves.items;
    } };

    ghost invariant = { λ g. g.boxes ≤ g.limit };
}

impl Gathered {
    /// No tree so far, where all may have so many boxes.
    pub fn new(alloc: Global, limit: u32) -> Gathered
        ensures { result ≡ nothing_seen limit }
    {
        Gathered {
            cases: 0,
            boxes: 0,
            limit,
            first: None,
            leaves: Vec::new(alloc),
        }
    }

    /// How many boxes the trees to come may have.
    pub fn left(&self) -> u32
        ensures left { result ≡ boxes_left self.now }
        ensures within { self.now.boxes ≤ self.now.limit }
    {
        self.limit - self.boxes
    }

    /// Adds what the tree of the next case came to, which might have the boxes that were left.
    /// False says that it has more. Lack of memory is the only error.
    pub fn add(&mut self, outcome: Outcome) -> Result<bool, AllocError>
        requires few { self.old.cases < 255 }
        requires within { IsWithin (boxes_left self.old) outcome }
        ensures added { IfOk result (λ all. IsTrue all → self.new ≡ with_outcome self.old outcome) }
        ensures all { IfOk result (λ all. IsTrue all → outcome ≢ Outcome.BoxLimit) }
        ensures over { IfOk result (λ all. all ≡ false → outcome ≡ Outcome.BoxLimit) }
        ensures kept { IfOk result (λ all. all ≡ false → self.new ≡ self.old) }
    {
        match outcome {
            Outcome::Leaves { boxes, leaves } => {
                if self.first.is_none() {
                    let mut leaves = leaves.into_vec();
                    self.leaves.append(&mut leaves)?;
                }
                self.cases += 1;
                self.boxes += boxes;
                Ok(true)
            }
            Outcome::Unproved { boxes, leaf } => {
                let leaf = OpenLeaf {
                    case: self.cases,
                    path: leaf.path,
                    goal: leaf.goal,
                };
                if self.first.is_none() {
                    self.first = Some(leaf);
                }
                self.cases += 1;
                self.boxes += boxes;
                Ok(true)
            }
            Outcome::BoxLimit => Ok(false),
        }
    }

    /// What all trees come to, where no other follows.
    pub fn finish(self) -> Outcome
        ensures { result ≡ end_of self }
    {
        let Gathered {
            cases: _,
            boxes,
            limit: _,
            first,
            leaves,
        } = self;
        match first {
            Some(leaf) => Outcome::Unproved { boxes, leaf },
            None => Outcome::Leaves {
                boxes,
                leaves: Items::from_vec(leaves),
            },
        }
    }
}
