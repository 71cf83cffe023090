//! Pairs as keys of a hashed set.

ghost use Rattle.std.specs.Prelude.{◌≡◌};
ghost use Rattle.std.specs.Cmp.Rules.{hashing};
ghost use Rattle.std.proofs.Common.{rules};
ghost use Rattle.pair_closure.specs.Hashed.{hashed};
ghost use Rattle.pair_closure.specs.Closure.{rank};

use fx_model::ExprId;
use std::hash::{Hash, Hasher};
use std::marker::Model;

/// Two expressions that are compared; which one is first matters.
#[derive(Clone, Copy, PartialEq, Eq)]
pub struct Pair {
    first: ExprId,
    second: ExprId,
}

impl Model for Pair {
    ghost use Rattle.fx_model.specs.declared.ExprId.{ExprId};

    ghost Value = { ExprId × ExprId };

    ghost view = { λ pair. (pair.first, pair.second) };

    ghost inverse = { λ sides. record { first = sides.0; second = sides.1 } };
}

impl Pair {
    /// The pair of these expressions, in this order.
    pub fn new(first: ExprId, second: ExprId) -> Pair
        ensures { result ≡ (first, second) }
    {
        Pair { first, second }
    }

    /// The two expressions, the first one first.
    pub fn sides(self) -> (ExprId, ExprId)
        ensures { result ≡ self }
    {
        (self.first, self.second)
    }

    /// Its place in the order of all pairs: by first sides, then by second ones.
    pub fn rank(&self) -> u32
        ensures { result ≡ rank self.now }
    {
        (self.first.0 as u32) * 65536 + (self.second.0 as u32)
    }
}

impl Hash for Pair {
    ghost hash_input = { hashed };

    ghost respects_eq = { Prim.search (hashing, rules) };

    fn hash<H: Hasher>(&self, state: &mut H) {
        self.first.0.hash(state);
        self.second.0.hash(state);
    }
}
