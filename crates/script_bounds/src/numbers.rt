//! Written bounds, read and rounded to the grid.

ghost use Rattle.std.specs.Prelude.{◌≡◌, ◌↔◌, Some};
ghost use Rattle.std.specs.Option.{option_map};
ghost use Rattle.fx_model.specs.Fraction.{Fraction};
ghost use Rattle.dyadic.specs.Ends.{bound_of};
ghost use Rattle.dyadic.specs.Values.{value_of as grid_value};
ghost use Rattle.literal_order.specs.Values.{written_value, IsWritten};
ghost use Rattle.script_bounds.specs.Texts.{IsNumber};
ghost use Rattle.script_bounds.specs.Tests as spec;

use dyadic::{Dyadic, End};
use facts::RelativeError;
use literal::read_bytes;
use literal_order::Written;

/// The number that the text of a literal stands for, or the negative of it. `None` exactly where
/// the text is no literal within its limits.
pub fn read_number(negative: bool, text: &[u8]) -> Option<Written>
    ensures normal { IsWritten result }
    ensures value { (x : Fraction) → (option_map written_value result ≡ Some x)
        ↔ IsNumber negative text.now x }
{
    match read_bytes(text) {
        Ok(literal) => Some(Written { literal, negative }),
        Err(_) => None,
    }
}

fn number_at(end: End) -> Option<Dyadic>
    ensures { option_map grid_value result ≡ spec.number_at (bound_of end) }
{
    match end {
        End::Low => None,
        End::At(number) => Some(number),
        End::High => None,
    }
}

/// Whether the number, rounded down to the grid, isn't above -1.
pub fn is_too_low(number: Written) -> bool
    requires { IsWritten (Some number) }
    ensures { result ≡ spec.is_too_low (written_value number) }
{
    RelativeError::new(number.enclosed()).is_none()
}

/// The greatest number of the grid that isn't above the number, where there is one.
pub fn down(number: Written) -> Option<Dyadic>
    requires { IsWritten (Some number) }
    ensures { option_map grid_value result ≡ spec.down_number (written_value number) }
{
    number_at(number.enclosed().lo())
}

/// The least number of the grid that isn't below the number, where there is one.
pub fn up(number: Written) -> Option<Dyadic>
    requires { IsWritten (Some number) }
    ensures { option_map grid_value result ≡ spec.up_number (written_value number) }
{
    number_at(number.enclosed().hi())
}
