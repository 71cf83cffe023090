//! What is shown of a goal: a value, none, or that both sides are 0.

ghost use Rattle.std.specs.Prelude.{◌≡◌, ◌++◌, OnOk};
ghost use Rattle.exact_fractions.specs.Exact.{value_of};
ghost use Rattle.point_values.specs.Shown.{shown_text};
ghost use Rattle.point_values.specs.Text.{fraction_text, value_text};
ghost use Rattle.point_values.specs.Known.{fraction_of};

use exact_fractions::Exact;
use std::alloc::AllocError;

/// What is shown of a goal.
#[derive(Clone, Copy)]
pub enum Shown {
    /// A value, or that there is none.
    Value(Option<Exact>),
    /// Both sides of a relative goal are 0.
    Zero,
}

// Appends the fraction. `Err` only where memory runs out; a part of it may then be there.
fn put_fraction(out: &mut Vec<u8>, x: Exact) -> Result<(), AllocError>
    ensures added { OnOk result (out.new.items ≡ out.old.items ++ fraction_text (value_of x)) }
{
    let n = x.numerator();
    let d = x.denominator();
    let text = format!(in *out.allocator(); "{n}")?;
    out.extend_from_slice(text.as_bytes())?;
    if d == 1 {
        return Ok(());
    }
    let text = format!(in *out.allocator(); "/{d}")?;
    out.extend_from_slice(text.as_bytes())
}

// Appends the value. `Err` only where memory runs out; a part of it may then be there.
fn put_value(out: &mut Vec<u8>, value: Option<Exact>) -> Result<(), AllocError>
    ensures added { OnOk result (out.new.items ≡ out.old.items ++ value_text (fraction_of value)) }
{
    match value {
        Some(x) => put_fraction(out, x),
        None => out.extend_from_slice("no value".as_bytes()),
    }
}

/// Appends what is shown. `Err` only where memory runs out; a part of it may then be there.
pub fn put_shown(out: &mut Vec<u8>, shown: Shown) -> Result<(), AllocError>
    ensures added { OnOk result (out.new.items ≡ out.old.items ++ shown_text shown) }
{
    match shown {
        Shown::Value(value) => put_value(out, value),
        Shown::Zero => out.extend_from_slice("zero".as_bytes()),
    }
}
