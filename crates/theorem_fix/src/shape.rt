// Roundings of an expression.
ghost use Rattle.std.specs.Prelude.{◌≡◌};
ghost use Rattle.theorem_fix.specs.Shapes.{IsInLimits, rounding_at, error_rounding_at};

use expr_dag::Dag;
use fx_model::{ExprId, Node, Rounding};

/// The rounding R, where `e` is R(x); `None` where it is anything else.
pub fn rounding(dag: &Dag, e: ExprId, x: ExprId) -> Option<Rounding>
    ensures is { result ≡ rounding_at dag.now e x }
    ensures limits { IsInLimits result }
{
    dag.laws();
    match dag.get(e) {
        Some(Node::Round(r, y)) => { if y == x { Some(r) } else { None } }
        _ => None,
    }
}

/// The rounding R, where `e` is R(x) - x, its error; `None` where it is anything else.
pub fn error_rounding(dag: &Dag, e: ExprId, x: ExprId) -> Option<Rounding>
    ensures is { result ≡ error_rounding_at dag.now e x }
    ensures limits { IsInLimits result }
{
    match dag.get(e) {
        Some(Node::Sub(r, y)) => { if y == x { rounding(dag, r, x) } else { None } }
        _ => None,
    }
}
