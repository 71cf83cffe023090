//! Lists that grow at their end.

ghost use Rattle.std.specs.Prelude.{◌≡◌, OnOk};
ghost use Rattle.std.specs.List.{list_any};
ghost use Rattle.script_hints.specs.Hints as spec;

use dyadic::{Dyadic, End};
use fx_model::ExprId;
use std::alloc::AllocError;

fn has(variables: &[ExprId], variable: ExprId) -> bool
    ensures { result ≡ list_any (spec.same_number variable) variables.now }
{
    variables.iter().any(|other| variable.0 == other.0)
}

/// Adds a variable, unless it is among them.
pub fn add_variable(variables: &mut Vec<ExprId>, variable: ExprId) -> Result<(), AllocError>
    ensures { OnOk result (variables.new.items ≡ spec.with_variable variables.old.items variable) }
{
    if has(variables.as_slice(), variable) {
        return Ok(());
    }
    variables.push(variable)?;
    Ok(())
}

/// Adds a point, where there is one.
pub fn add_end(points: &mut Vec<Dyadic>, end: End) -> Result<(), AllocError>
    ensures { OnOk result (points.new.items ≡ spec.with_end points.old.items end) }
{
    match end {
        End::At(point) => points.push(point)?,
        _ => {}
    }
    Ok(())
}
