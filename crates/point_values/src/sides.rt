//! On which side of a written bound a value stands.

ghost use Rattle.std.specs.Prelude.{◌≡◌, ◌++◌, Some};
ghost use Rattle.literal_order.specs.Values.{IsWritten, written_value};
ghost use Rattle.literal_order.specs.declared.written.Written.{Written};
ghost use Rattle.exact_fractions.specs.Exact.{value_of, GivesTest};
ghost use Rattle.exact_fractions.specs.Wide.{comparison_numbers};
ghost use Rattle.point_values.specs.Known.{fraction_of};
ghost use Rattle.point_values.specs.Numbers.{side_numbers, bound_numbers};
ghost use Rattle.point_values.specs.Truth as spec;
ghost use Rattle.point_values.specs.Truth.{with_value};

use exact_fractions::Exact;
use literal_order::Written;

// Whether x is below the bound, or at most it where that isn't strict.
fn is_under(x: Exact, bound: Exact, strict: bool) -> Option<bool>
    ensures { (w : Written) → value_of bound ≡ written_value w
        → GivesTest (comparison_numbers (value_of x) (written_value w))
        (spec.is_below w strict (value_of x)) result }
{
    if strict {
        match x.is_at_least(bound) {
            Some(test) => Some(!test),
            None => None,
        }
    } else {
        x.is_at_most(bound)
    }
}

// Whether x is above the bound, or at least it where that isn't strict.
fn is_over(x: Exact, bound: Exact, strict: bool) -> Option<bool>
    ensures { (w : Written) → value_of bound ≡ written_value w
        → GivesTest (comparison_numbers (value_of x) (written_value w))
        (spec.is_above w strict (value_of x)) result }
{
    if strict {
        match x.is_at_most(bound) {
            Some(test) => Some(!test),
            None => None,
        }
    } else {
        x.is_at_least(bound)
    }
}

/// Whether there is a value, and it is below the bound, or at most it where that isn't strict; no
/// answer exactly where a
/// number is too wide.
pub fn is_below(value: Option<Exact>, bound: Written, strict: bool) -> Option<bool>
    requires { IsWritten (Some bound) }
    ensures { GivesTest (side_numbers bound (fraction_of value))
        (with_value (spec.is_below bound strict) (fraction_of value)) result }
{
    let Some(edge) = Exact::of_written(bound) else {
        return None;
    };
    match value {
        Some(x) => is_under(x, edge, strict),
        None => Some(false),
    }
}

/// Whether there is a value, and it is above the bound, or at least it where that isn't strict; no
/// answer exactly where a
/// number is too wide.
pub fn is_above(value: Option<Exact>, bound: Written, strict: bool) -> Option<bool>
    requires { IsWritten (Some bound) }
    ensures { GivesTest (side_numbers bound (fraction_of value))
        (with_value (spec.is_above bound strict) (fraction_of value)) result }
{
    let Some(edge) = Exact::of_written(bound) else {
        return None;
    };
    match value {
        Some(x) => is_over(x, edge, strict),
        None => Some(false),
    }
}

// Whether there is a value, and it is at least the bound, if there is one.
fn is_from(value: Option<Exact>, bound: Option<Written>) -> Option<bool>
    requires { IsWritten bound }
    ensures { GivesTest (bound_numbers bound (fraction_of value))
        (with_value (spec.is_from bound) (fraction_of value)) result }
{
    match bound {
        Some(bound) => is_above(value, bound, false),
        None => Some(value.is_some()),
    }
}

// Whether there is a value, and it is at most the bound, if there is one.
fn is_to(value: Option<Exact>, bound: Option<Written>) -> Option<bool>
    requires { IsWritten bound }
    ensures { GivesTest (bound_numbers bound (fraction_of value))
        (with_value (spec.is_to bound) (fraction_of value)) result }
{
    match bound {
        Some(bound) => is_below(value, bound, false),
        None => Some(value.is_some()),
    }
}

/// Whether there is a value, and it lies between the bounds; no answer exactly where a number is
/// too wide.
pub fn lies_within(
    value: Option<Exact>,
    lower: Option<Written>,
    upper: Option<Written>,
) -> Option<bool>
    requires lower { IsWritten lower }
    requires upper { IsWritten upper }
    ensures { GivesTest (bound_numbers lower (fraction_of value)
        ++ bound_numbers upper (fraction_of value))
        (spec.lies_within lower upper (fraction_of value)) result }
{
    let Some(low) = is_from(value, lower) else {
        return None;
    };
    let Some(high) = is_to(value, upper) else {
        return None;
    };
    Some(low && high)
}
