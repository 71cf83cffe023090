//! Nodes as keys of a hashed set.

ghost use Rattle.std.specs.Prelude.{◌≡◌};
ghost use Rattle.std.specs.Cmp.Rules.{hashing};
ghost use Rattle.std.proofs.Common.{rules};
ghost use Rattle.expr_dag.specs.Hashed.{hashed};
ghost use Rattle.expr_dag.specs.Nodes.{same_node};

use fx_model::Node;
use std::hash::{Hash, Hasher};
use std::marker::Model;

/// A node that is found by its hash.
#[derive(Clone, Copy, PartialEq, Eq)]
pub struct Key {
    node: Node,
}

impl Model for Key {
    ghost use Rattle.fx_model.specs.declared.Node.{Node};

    ghost Value = { Node };

    ghost view = { λ key. key.node };

    ghost inverse = { λ node. record { node = node } };
}

impl Key {
    /// The key of a node.
    pub fn new(node: Node) -> Key
        ensures { result ≡ node }
    {
        Key { node }
    }

    /// Whether it is of this node. Where the kind is known when the program is built, that is three
    /// comparisons.
    #[inline(always)]
    pub fn is(&self, node: &Node) -> bool
        ensures { result ≡ same_node self.now node.now }
    {
        match (self.node, *node) {
            (Node::Var(n), Node::Var(m)) => n == m,
            (Node::Lit(l), Node::Lit(m)) => l == m,
            (Node::Neg(x), Node::Neg(z)) => x == z,
            (Node::Add(x, y), Node::Add(z, w)) => (x == z) & (y == w),
            (Node::Sub(x, y), Node::Sub(z, w)) => (x == z) & (y == w),
            (Node::Mul(x, y), Node::Mul(z, w)) => (x == z) & (y == w),
            (Node::Div(x, y), Node::Div(z, w)) => (x == z) & (y == w),
            (Node::Abs(x), Node::Abs(z)) => x == z,
            (Node::Round(r, x), Node::Round(q, z)) => r == q && x == z,
            _ => false,
        }
    }

    /// The node that the key is of.
    pub fn node(self) -> Node
        ensures { result ≡ self }
    {
        self.node
    }
}

// The kind of a node goes first, so that nodes of two kinds differ in what they write.
impl Hash for Key {
    ghost hash_input = { hashed };

    ghost respects_eq = { Prim.search (hashing, rules) };

    fn hash<H: Hasher>(&self, state: &mut H) {
        match self.node {
            Node::Var(n) => {
                state.write_u8(0);
                n.hash(state);
            }
            Node::Lit(l) => {
                state.write_u8(1);
                l.num.hash(state);
                l.two.hash(state);
                l.ten.hash(state);
            }
            Node::Neg(x) => {
                state.write_u8(2);
                x.0.hash(state);
            }
            Node::Add(x, y) => {
                state.write_u8(3);
                x.0.hash(state);
                y.0.hash(state);
            }
            Node::Sub(x, y) => {
                state.write_u8(4);
                x.0.hash(state);
                y.0.hash(state);
            }
            Node::Mul(x, y) => {
                state.write_u8(5);
                x.0.hash(state);
                y.0.hash(state);
            }
            Node::Div(x, y) => {
                state.write_u8(6);
                x.0.hash(state);
                y.0.hash(state);
            }
            Node::Abs(x) => {
                state.write_u8(7);
                x.0.hash(state);
            }
            Node::Round(r, x) => {
                state.write_u8(8);
                r.lsb.hash(state);
                x.0.hash(state);
            }
        }
    }
}
