//! The rows of hints.

ghost use Rattle.std.specs.Prelude.{◌≡◌, ◌<◌, length, map, All, IfOk};
ghost use Rattle.script_hints.specs.Needs.{HasNormalBound, HasNormalBounds, need_of};
ghost use Rattle.rewrite_hints.specs.Rows.{IsRowOf};
ghost use Rattle.rewrite_hints.specs.Marks.{AreRows, AreKnownSides};

use crate::divisors::divisors_of;
use expr_dag::Dag;
use facts::{HintRow, Need};
use fx_edge::Items;
use script_hints::hint::{Constraint, Hint};
use std::alloc::{AllocError, Global};

// The constraints with their bounds rounded to the grid, so that what meets them meets the written
// ones.
fn needs_of(alloc: Global, constraints: &[Constraint]) -> Result<Vec<Need>, AllocError>
    requires { All HasNormalBound constraints.now }
    ensures { IfOk result (λ needs. needs.items ≡ map need_of constraints.now) }
{
    let mut needs = Vec::new(alloc);
    for constraint in constraints {
        needs.push(constraint.need())?;
    }
    Ok(needs)
}

/// The hint with the divisors that occur anywhere in its left side, by rising number, and its
/// constraints with bounds rounded to the grid.
pub fn row_of(alloc: Global, dag: &Dag, hint: &Hint) -> Result<HintRow, AllocError>
    requires known { hint.now.left.0 < length dag.now }
    requires normal { HasNormalBounds hint.now }
    ensures { IfOk result (IsRowOf dag.now hint.now) }
{
    let divisors = divisors_of(alloc, dag, hint.left)?;
    let needs = needs_of(alloc, hint.constraints.as_slice())?;
    Ok(HintRow {
        left: hint.left,
        right: hint.right,
        divisors: Items::from_vec(divisors),
        needs: Items::from_vec(needs),
    })
}

/// One row for each hint, in order.
pub fn rows_of(alloc: Global, dag: &Dag, hints: &[Hint]) -> Result<Vec<HintRow>, AllocError>
    requires known { AreKnownSides dag.now hints.now }
    requires normal { All HasNormalBounds hints.now }
    ensures { IfOk result (λ rows. AreRows dag.now hints.now rows.items) }
{
    let mut rows = Vec::new(alloc);
    for hint in hints {
        rows.push(row_of(alloc, dag, hint)?)?;
    }
    Ok(rows)
}
