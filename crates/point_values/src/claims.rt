//! Claims at a point.

ghost use Rattle.std.specs.Prelude.{◌≡◌, ◌++◌, ◌||◌, [], true, Some};
ghost use Rattle.literal_order.specs.Values.{IsWritten};
ghost use Rattle.exact_fractions.specs.Exact.{GivesTest};
ghost use Rattle.exact_fractions.specs.Wide.{multiple_numbers};
ghost use Rattle.script_claims.specs.Facts.{HasNormalBounds};
ghost use Rattle.point_values.specs.Known.{fraction_of, values_of, GivesValue};
ghost use Rattle.point_values.specs.Numbers.{of_value, side_numbers, bound_numbers, error_numbers};
ghost use Rattle.point_values.specs.Numbers.{claim_numbers, error_of as spec_error_of};
ghost use Rattle.point_values.specs.Text.{value_text, relative_text, goal_text};
ghost use Rattle.point_values.specs.Truth as spec;
ghost use Rattle.point_values.specs.Truth.{with_value};
ghost use Rattle.point_values.specs.Shown.{shown_text, IsJudged, GivesJudged};

use crate::shown::Shown;
use crate::sides::{is_above, is_below, lies_within};
use crate::values::value_at;
use exact_fractions::Exact;
use literal_order::Written;
use script_claims::Claim;

/// What a claim is at a point.
#[derive(Clone, Copy)]
pub struct Judged {
    pub holds: bool,
    pub shown: Shown,
}

// Whether both have values, which are 0.
fn are_zero(x: Option<Exact>, y: Option<Exact>) -> bool
    ensures { result ≡ spec.are_zero (fraction_of x) (fraction_of y) }
{
    match x {
        Some(x) => match y {
            Some(y) => x.is_zero() && y.is_zero(),
            None => false,
        },
        None => false,
    }
}

// x / y - 1, where there is one; no answer exactly where one of its numbers is too wide.
fn error_of(x: Option<Exact>, y: Option<Exact>) -> Option<Option<Exact>>
    ensures { GivesValue (error_numbers (fraction_of x) (fraction_of y))
        (spec_error_of (fraction_of x) (fraction_of y)) result }
{
    let Some(x) = x else {
        return Some(None);
    };
    let Some(y) = y else {
        return Some(None);
    };
    if y.is_zero() {
        return Some(None);
    }
    let Some(quotient) = x.quotient(y) else {
        return None;
    };
    match quotient.difference(Exact::one()) {
        Some(error) => Some(Some(error)),
        None => None,
    }
}

// Whether there is a value, which is a multiple of 2^k; no answer exactly where a number is too
// wide.
fn is_multiple(value: Option<Exact>, k: i16) -> Option<bool>
    ensures { GivesTest (of_value (multiple_numbers k) (fraction_of value))
        (with_value (spec.is_multiple k) (fraction_of value)) result }
{
    let Some(x) = value else {
        return Some(false);
    };
    match x.scaled(-i32::from(k)) {
        Some(units) => Some(units.denominator() == 1),
        None => None,
    }
}

// A claim that a value lies between bounds.
fn judge_bounded(
    value: Option<Exact>,
    lower: Option<Written>,
    upper: Option<Written>,
) -> Option<Judged>
    requires lower { IsWritten lower }
    requires upper { IsWritten upper }
    ensures { GivesJudged (bound_numbers lower (fraction_of value)
        ++ bound_numbers upper (fraction_of value))
        (spec.lies_within lower upper (fraction_of value)) (value_text (fraction_of value)) result }
{
    match lies_within(value, lower, upper) {
        Some(holds) => Some(Judged {
            holds,
            shown: Shown::Value(value),
        }),
        None => None,
    }
}

// What is shown of a relative goal.
fn relative_shown(x: Option<Exact>, y: Option<Exact>, error: Option<Exact>) -> Shown
    requires { fraction_of error ≡ spec_error_of (fraction_of x) (fraction_of y) }
    ensures { shown_text result ≡ relative_text (fraction_of x) (fraction_of y) }
{
    if are_zero(x, y) {
        Shown::Zero
    } else {
        Shown::Value(error)
    }
}

// A claim that a relative error lies between bounds.
fn judge_relative(
    x: Option<Exact>,
    y: Option<Exact>,
    lower: Written,
    upper: Written,
) -> Option<Judged>
    requires lower { IsWritten (Some lower) }
    requires upper { IsWritten (Some upper) }
    ensures { GivesJudged (error_numbers (fraction_of x) (fraction_of y)
        ++ (bound_numbers (Some lower) (spec_error_of (fraction_of x) (fraction_of y))
        ++ bound_numbers (Some upper) (spec_error_of (fraction_of x) (fraction_of y))))
        (spec.are_zero (fraction_of x) (fraction_of y) || spec.lies_within (Some lower) (Some upper)
        (spec_error_of (fraction_of x) (fraction_of y)))
        (relative_text (fraction_of x) (fraction_of y)) result }
{
    let Some(error) = error_of(x, y) else {
        return None;
    };
    match lies_within(error, Some(lower), Some(upper)) {
        Some(lies) => Some(Judged {
            holds: are_zero(x, y) || lies,
            shown: relative_shown(x, y, error),
        }),
        None => None,
    }
}

// What is asked of a relative error.
fn ask_relative(x: Option<Exact>, y: Option<Exact>) -> Option<Judged>
    ensures { GivesJudged (error_numbers (fraction_of x) (fraction_of y)) true
        (relative_text (fraction_of x) (fraction_of y)) result }
{
    match error_of(x, y) {
        Some(error) => Some(Judged {
            holds: true,
            shown: relative_shown(x, y, error),
        }),
        None => None,
    }
}

// A claim that a value is above a bound.
fn judge_above(value: Option<Exact>, bound: Written) -> Option<Judged>
    requires { IsWritten (Some bound) }
    ensures { GivesJudged (side_numbers bound (fraction_of value))
        (with_value (spec.is_above bound true) (fraction_of value)) (value_text (fraction_of value))
        result }
{
    match is_above(value, bound, true) {
        Some(holds) => Some(Judged {
            holds,
            shown: Shown::Value(value),
        }),
        None => None,
    }
}

// A claim that a value is below a bound.
fn judge_below(value: Option<Exact>, bound: Written) -> Option<Judged>
    requires { IsWritten (Some bound) }
    ensures { GivesJudged (side_numbers bound (fraction_of value))
        (with_value (spec.is_below bound true) (fraction_of value)) (value_text (fraction_of value))
        result }
{
    match is_below(value, bound, true) {
        Some(holds) => Some(Judged {
            holds,
            shown: Shown::Value(value),
        }),
        None => None,
    }
}

// A claim that a value is a multiple of 2^k.
fn judge_multiple(value: Option<Exact>, k: i16) -> Option<Judged>
    ensures { GivesJudged (of_value (multiple_numbers k) (fraction_of value))
        (with_value (spec.is_multiple k) (fraction_of value)) (value_text (fraction_of value))
        result }
{
    match is_multiple(value, k) {
        Some(holds) => Some(Judged {
            holds,
            shown: Shown::Value(value),
        }),
        None => None,
    }
}

// A question claims nothing.
fn ask(value: Option<Exact>) -> Judged
    ensures { IsJudged [] true (value_text (fraction_of value)) result }
{
    Judged {
        holds: true,
        shown: Shown::Value(value),
    }
}

/// The claim's truth, and what is shown of it as a goal; no answer exactly where one of its numbers
/// is too wide.
pub fn judge(values: &[Option<Exact>], claim: Claim) -> Option<Judged>
    requires { HasNormalBounds claim }
    ensures { GivesJudged (claim_numbers (values_of values.now) claim)
        (spec.claim_holds (values_of values.now) claim) (goal_text (values_of values.now) claim)
        result }
{
    match claim {
        Claim::Bounded(x, lower, upper) => judge_bounded(value_at(values, x), lower, upper),
        Claim::Asked(x) => Some(ask(value_at(values, x))),
        Claim::Relative(x, y, lower, upper) => {
            judge_relative(value_at(values, x), value_at(values, y), lower, upper)
        }
        Claim::RelativeAsked(x, y) => ask_relative(value_at(values, x), value_at(values, y)),
        Claim::Above(x, bound) => judge_above(value_at(values, x), bound),
        Claim::Below(x, bound) => judge_below(value_at(values, x), bound),
        Claim::Multiple(x, k) => judge_multiple(value_at(values, x), k),
    }
}
