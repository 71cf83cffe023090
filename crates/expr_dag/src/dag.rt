//! The list of nodes.

ghost use Rattle.std.specs.Prelude.{◌≡◌, ◌<◌, ◌≤◌, ◌↔◌, [], length, slice_index_or, slice_get, Err};
ghost use Rattle.std.specs.Prelude.{Some, IsNone, IfSome, IfOk, OnErr};
ghost use Rattle.fx_model.specs.declared.Node.{Node};
ghost use Rattle.fx_model.specs.declared.ExprId.{ExprId};
ghost use Rattle.fx_model.specs.Expression.{IsOrdered};
ghost use Rattle.expr_dag.specs.Shapes.{is_at, is_known, are_known};
ghost use Rattle.expr_dag.specs.Nodes.{IsLawful, IsAt, IsAbsent, IsFull, IsPlaced, IsKept};
ghost use Rattle.expr_dag.specs.Nodes.{place_of, with_node};

use crate::key::Key;
use fx_model::{ExprId, Node};
use indexmap::IndexSet;
use std::alloc::{AllocError, Global};
use std::marker::Model;
use thiserror::Error;

const LIMIT: u16 = 1024;

/// Why a node isn't added.
#[derive(Clone, Copy, PartialEq, Eq, Debug, Drop, Error)]
pub enum DagFault {
    /// The node isn't there, and 1,024 nodes are.
    #[error("the list has 1,024 nodes")]
    Full,
    /// There is no memory for a further node.
    #[error("out of memory")]
    OutOfMemory,
}

/// A list of at most 1,024 distinct nodes, each made of earlier ones. Its literals are in normal
/// form and within their limits, and its roundings are to multiples of 2^-512 to 2^512.
#[derive(Drop)]
pub struct Dag {
    set: IndexSet<Key>,
}

impl Model for Dag {
    ghost use Rattle.std.specs.Prelude.{List};
    ghost use Rattle.fx_model.specs.declared.Node.{Node};
    ghost use Rattle.expr_dag.specs.Nodes.{IsShared};

    ghost Value = { List Node };

    ghost view = { λ dag. dag.set.keys };

    ghost invariant = { λ dag. IsShared dag.set.keys };
}

impl Dag {
    /// A list of no nodes. It takes no memory.
    pub fn new(alloc: Global) -> Dag
        ensures { result ≡ [] }
    {
        Dag {
            set: IndexSet::new(alloc),
        }
    }

    /// The number of a node, which goes last where it isn't there.
    pub fn add(&mut self, node: Node) -> Result<ExprId, DagFault>
        requires { IsLawful (length self.old) node }
        // A node that is there keeps its number, and a new one goes last.
        ensures placed { IfOk result (IsPlaced self.old node self.new) }
        ensures computes { IfOk result (λ x. (self.new, x) ≡ with_node self.old node) }
        // It is full exactly where the node isn't there and 1,024 nodes are, and memory is asked
        // for new nodes alone.
        ensures full { (result ≡ Err DagFault.Full) ↔ IsFull self.old node }
        ensures memory { result ≡ Err DagFault.OutOfMemory
            → IsAbsent self.old node × (length self.old < 1024) }
        ensures refused { OnErr result (self.new ≡ self.old) }
        // Nodes that are there keep their numbers and their values.
        ensures kept { IsKept self.old self.new }
    {
        if self.len() == LIMIT {
            return self.find(node).ok_or(DagFault::Full);
        }
        let Ok((place, _)) = self.set.insert_full(Key::new(node)) else {
            return Err(DagFault::OutOfMemory);
        };
        Ok(ExprId(place as u16))
    }

    /// A list of the same nodes in memory of its own.
    pub fn copy(&self) -> Result<Dag, AllocError>
        ensures { IfOk result (λ other. other ≡ self.now) }
    {
        let set = self.set.clone()?;
        Ok(Dag { set })
    }

    /// The number of a node; `None` exactly where it isn't there. It takes no memory.
    pub fn find(&self, node: Node) -> Option<ExprId>
        ensures at { IfSome result (λ x. IsAt self.now x node) }
        ensures none { IsNone result ↔ IsAbsent self.now node }
        ensures computes { result ≡ place_of self.now node }
    {
        let place = self.set.get_index_of(&Key::new(node))?;
        Some(ExprId(place as u16))
    }

    /// The node with this number.
    pub fn node(&self, id: ExprId) -> Node
        requires { id.0 < length self.now }
        ensures at { IsAt self.now id result }
        ensures read { (d : Node) → slice_index_or self.now id.0 d ≡ result }
    {
        let key = self.set.as_slice()[usize::from(id.0)];
        key.node()
    }

    /// The node with this number; `None` exactly where there are not so many.
    pub fn get(&self, id: ExprId) -> Option<Node>
        ensures { result ≡ slice_get self.now id.0 }
    {
        if self.knows(id) {
            Some(self.node(id))
        } else {
            None
        }
    }

    /// Whether the expression with this number is this node.
    #[inline(always)]
    pub fn is_at(&self, id: ExprId, node: Node) -> bool
        ensures { result ≡ is_at self.now id node }
    {
        match self.set.get_index(usize::from(id.0)) {
            Some(key) => key.is(&node),
            None => false,
        }
    }

    /// Whether an expression has this number.
    #[inline(always)]
    pub fn knows(&self, id: ExprId) -> bool
        ensures { result ≡ is_known self.now id }
    {
        id.0 < self.len()
    }

    /// Whether expressions have both numbers.
    #[inline(always)]
    pub fn know_both(&self, x: ExprId, y: ExprId) -> bool
        ensures { result ≡ are_known self.now x y }
    {
        self.knows(x) && self.knows(y)
    }

    /// How many nodes there are.
    pub fn len(&self) -> u16
        ensures len { result ≡ length self.now }
        ensures short { length self.now ≤ 1024 }
    {
        self.set.len() as u16
    }

    /// What every list keeps. It does nothing.
    pub fn laws(&self)
        ensures lawful { (x : ExprId) (n : Node) → IsAt self.now x n → IsLawful x.0 n }
        ensures ordered { IsOrdered self.now }
        ensures distinct { (x y : ExprId) (n : Node) → IsAt self.now x n
            → IsAt self.now y n → x ≡ y }
        ensures number { (x : ExprId) (n : Node)
            → (place_of self.now n ≡ Some x) ↔ IsAt self.now x n }
        ensures short { length self.now ≤ 1024 }
    {
        let _set = &self.set;
    }
}
