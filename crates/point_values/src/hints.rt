//! Rewritings at a point.

ghost use Rattle.std.specs.Prelude.{◌≡◌, All, not};
ghost use Rattle.std.specs.List.{flat_map, list_all};
ghost use Rattle.fx_model.specs.Fraction.{is_zero_ℚ};
ghost use Rattle.exact_fractions.specs.Exact.{GivesTest};
ghost use Rattle.script_hints.specs.Needs.{HasNormalBound, HasNormalBounds};
ghost use Rattle.point_values.specs.Known.{fraction_of, values_of};
ghost use Rattle.point_values.specs.Numbers.{constraint_numbers, hint_numbers};
ghost use Rattle.point_values.specs.Truth as spec;

use crate::sides::{is_above, is_below};
use crate::values::value_at;
use exact_fractions::Exact;
use script_hints::hint::{Constraint, Hint};

// Whether there is a value other than 0.
fn is_nonzero(value: Option<Exact>) -> bool
    ensures { result ≡ spec.with_value (λ r. not (is_zero_ℚ r)) (fraction_of value) }
{
    match value {
        Some(x) => !x.is_zero(),
        None => false,
    }
}

// Whether a constraint holds; no answer exactly where a number is too wide.
fn constraint_holds(values: &[Option<Exact>], constraint: Constraint) -> Option<bool>
    requires { HasNormalBound constraint }
    ensures { GivesTest (constraint_numbers (values_of values.now) constraint)
        (spec.constraint_holds (values_of values.now) constraint) result }
{
    match constraint {
        Constraint::NotZero(x) => Some(is_nonzero(value_at(values, x))),
        Constraint::Below(x, bound, strict) => is_below(value_at(values, x), bound, strict),
        Constraint::Above(x, bound, strict) => is_above(value_at(values, x), bound, strict),
    }
}

// Whether all constraints hold, each of which is judged; no answer exactly where a number is too
// wide.
fn constraints_hold(values: &[Option<Exact>], constraints: &[Constraint]) -> Option<bool>
    requires { All HasNormalBound constraints.now }
    ensures { GivesTest (flat_map (constraint_numbers (values_of values.now)) constraints.now)
        (list_all (spec.constraint_holds (values_of values.now)) constraints.now) result }
{
    let mut hold = true;
    let mut rest = constraints;
    while let [constraint, later @ ..] = rest {
        let Some(holds) = constraint_holds(values, *constraint) else {
            return None;
        };
        hold = hold && holds;
        rest = later;
    }
    Some(hold)
}

// Whether two values are one, where there are two.
fn agree(x: Option<Exact>, y: Option<Exact>) -> bool
    ensures { result ≡ spec.agree (fraction_of x) (fraction_of y) }
{
    match x {
        Some(x) => match y {
            Some(y) => x.is_equal(y),
            None => true,
        },
        None => true,
    }
}

/// Whether the rewriting holds: where its constraints do and both sides have values, the two are
/// equal; no answer exactly where
/// a number is too wide.
pub fn hint_holds(values: &[Option<Exact>], hint: &Hint) -> Option<bool>
    requires { HasNormalBounds hint.now }
    ensures { GivesTest (hint_numbers (values_of values.now) hint.now)
        (spec.hint_holds (values_of values.now) hint.now) result }
{
    match constraints_hold(values, hint.constraints.as_slice()) {
        Some(hold) => Some(
            !hold || agree(value_at(values, hint.left), value_at(values, hint.right)),
        ),
        None => None,
    }
}
