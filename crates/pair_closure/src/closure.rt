//! The pairs and the expressions of a script.

ghost use Rattle.std.specs.Prelude.{◌≡◌, ◌≤◌, length, Ok, Err, None, IfOk, IfSome};
ghost use Rattle.pair_closure.specs.declared.closure.ClosureFault.TheVariants as ClosureFault;
ghost use Rattle.pair_closure.specs.Reached.{IsListOf};
ghost use Rattle.pair_closure.specs.Closure.{AreKnown, AreRising, AreManyPairs, IsPair, IsClosure};
ghost use Rattle.pair_closure.specs.Closure.{IsExpression, AreTooMany};

use crate::differences::close;
use crate::follow::follow_all;
use crate::index::PairIndex;
use crate::order::in_order;
use expr_dag::{Dag, DagFault};
use fx_model::ExprId;
use std::alloc::{AllocError, Global};

/// Why there is no closure.
#[derive(Clone, Copy, PartialEq, Eq, Debug)]
pub enum ClosureFault {
    /// There are more than 1,024 expressions.
    TooMany,
    /// There is no memory.
    OutOfMemory,
}

impl From<AllocError> for ClosureFault {
    ghost from_gives = { λ e f. f ≡ ClosureFault.OutOfMemory };

    fn from(_: AllocError) -> ClosureFault {
        ClosureFault::OutOfMemory
    }
}

/// Expressions and pairs.
#[derive(Drop)]
pub struct Closure {
    /// The expressions, of which the script's nodes stand first.
    pub nodes: Dag,
    pub pairs: PairIndex,
}

// The pairs by rising sides, with their index; none where they are more than 1,024.
fn pairs_of(
    alloc: Global,
    script: &Dag,
    starts: &[(ExprId, ExprId)],
) -> Result<Option<PairIndex>, AllocError>
    requires { AreKnown script.now starts.now }
    ensures all { IfOk result (λ o. IfSome o (IsListOf (IsPair script.now starts.now))) }
    ensures rising { IfOk result (λ o. IfSome o AreRising) }
    ensures few { IfOk result (λ o. IfSome o (λ pairs. length pairs ≤ 1024)) }
    ensures many { result ≡ Ok None → AreManyPairs script.now starts.now }
{
    script.laws();
    match follow_all(alloc, script, starts)? {
        None => Ok(None),
        Some(found) => {
            let mut pairs = found;
            pairs.laws();
            pairs.sort()?;
            pairs.laws();
            let index = PairIndex::new(alloc, pairs, script.len())?;
            Ok(Some(index))
        }
    }
}

/// All pairs that follow from a script's roundings and from the pairs to begin with, and all
/// expressions that these take.
pub fn closure_of(
    alloc: Global,
    script: &Dag,
    starts: &[(ExprId, ExprId)],
) -> Result<Closure, ClosureFault>
    requires { AreKnown script.now starts.now }
    ensures closed { IfOk result (λ c. IsClosure script.now starts.now c.nodes c.pairs) }
    ensures known { IfOk result (λ c. AreKnown c.nodes c.pairs) }
    ensures short { IfOk result (λ c. length c.pairs ≤ 1024) }
    // There are too many exactly where that is answered, lack of memory aside.
    ensures few { IfOk result (λ c. ¬ AreTooMany (IsExpression script.now starts.now)) }
    ensures many { result ≡ Err ClosureFault.TooMany
        → AreTooMany (IsExpression script.now starts.now) }
{
    script.laws();
    let Some(pairs) = pairs_of(alloc, script, starts)? else {
        return Err(ClosureFault::TooMany);
    };
    let mut all = script.copy()?;
    match close(script, &mut all, &pairs) {
        Ok(()) => {
            let nodes = in_order(alloc, script, &all)?;
            nodes.laws();
            Ok(Closure { nodes, pairs })
        }
        Err(DagFault::Full) => Err(ClosureFault::TooMany),
        Err(DagFault::OutOfMemory) => Err(ClosureFault::OutOfMemory),
    }
}
