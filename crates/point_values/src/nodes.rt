//! The values of all nodes.

ghost use Rattle.std.specs.Prelude.{◌≡◌, map, length, Err, IfOk, None, Some};
ghost use Rattle.fx_model.specs.Expression.{value};
ghost use Rattle.exact_fractions.specs.Exact.{value_of};
ghost use Rattle.point_values.specs.Walk.{AreKnown};
ghost use Rattle.point_values.specs.Numbers.{node_numbers, wide_from};
ghost use Rattle.point_values.specs.declared.place.Place.TheVariants as place;

use crate::place::{EvalStop, Place};
use crate::values::node_value;
use exact_fractions::Exact;
use expr_dag::Dag;
use fx_model::ExprId;
use std::alloc::Global;

/// The values of all nodes, or the first of them with a number that is too wide.
#[tactic(auto, using(crate::proofs::Walks::walk_start))]
pub fn node_values(
    alloc: Global,
    dag: &Dag,
    entries: &[Exact],
) -> Result<Vec<Option<Exact>>, EvalStop>
    ensures values { IfOk result (λ vs. AreKnown dag.now (map value_of entries.now) vs.items
        (length dag.now)) }
    ensures narrow { IfOk result
        (λ _. wide_from place.Node (node_numbers (value dag.now (map value_of entries.now))) 0
        dag.now ≡ None) }
    ensures wide { (p : Place) → result ≡ Err (EvalStop.TooWide p)
        → wide_from place.Node (node_numbers (value dag.now (map value_of entries.now))) 0 dag.now
        ≡ Some p }
{
    dag.laws();
    let mut values = Vec::new(alloc);
    for number in 0..dag.len() {
        let node = dag.node(ExprId(number));
        let Some(value) = node_value(entries, &values, node) else {
            return Err(EvalStop::TooWide(Place::Node(usize::from(number))));
        };
        values.push(value)?;
    }
    Ok(values)
}
