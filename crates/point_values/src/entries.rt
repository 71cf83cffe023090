//! The values of a point's entries.

ghost use Rattle.std.specs.Prelude.{◌≡◌, map, Err, IfOk, None, Some};
ghost use Rattle.std.specs.List.{AllByRecursion};
ghost use Rattle.exact_fractions.specs.Exact.{value_of, Gives};
ghost use Rattle.point_values.specs.Rows as spec;
ghost use Rattle.point_values.specs.Rows.{IsRow};
ghost use Rattle.point_values.specs.Numbers.{entry_numbers, wide_from};
ghost use Rattle.point_values.specs.declared.place.Place.TheVariants as place;

use crate::place::{EvalStop, Place};
use exact_fractions::Exact;
use fx_model::Literal;
use literal_order::Written;
use std::alloc::Global;

// What a variable is set to; no answer exactly where a number of the entry is too wide.

fn row_value(row: (Written, Option<Literal>)) -> Option<Exact>
    requires { IsRow row }
    ensures { Gives (entry_numbers row) (spec.row_value row) result }
{
    let (number, divisor) = row;
    let Some(top) = Exact::of_written(number) else {
        return None;
    };
    let Some(divisor) = divisor else {
        return Some(top);
    };
    let Some(bottom) = Exact::of_literal(divisor) else {
        return None;
    };
    top.quotient(bottom)
}

/// What the variables are set to, or the first entry with a number that is too wide.
pub fn entry_values(
    alloc: Global,
    rows: &[(Written, Option<Literal>)],
) -> Result<Vec<Exact>, EvalStop>
    requires { AllByRecursion IsRow rows.now }
    ensures values { IfOk result (λ xs. map value_of xs.items ≡ spec.assignment_of rows.now) }
    ensures narrow { IfOk result (λ _. wide_from place.Entry entry_numbers 0 rows.now ≡ None) }
    ensures wide { (p : Place) → result ≡ Err (EvalStop.TooWide p)
        → wide_from place.Entry entry_numbers 0 rows.now ≡ Some p }
{
    let mut values = Vec::new(alloc);
    let mut number = 0;
    let mut rest = rows;
    while let [row, later @ ..] = rest {
        let Some(value) = row_value(*row) else {
            return Err(EvalStop::TooWide(Place::Entry(number)));
        };
        values.push(value)?;
        number += 1;
        rest = later;
    }
    Ok(values)
}
