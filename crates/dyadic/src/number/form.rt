// Numbers in their canonical form.
ghost use Rattle.std.specs.Prelude.{◌≡◌, pos};
ghost use Rattle.fx_model.specs.Fraction.{zero_ℚ, one_ℚ};
ghost use Rattle.fx_model.specs.Powers.{scaled};
ghost use Rattle.fx_model.specs.Grid.{IsOnGrid};
ghost use Rattle.dyadic.specs.Values.{value_of, zero_number};

use super::{Dyadic, odd_part};
use crate::shift::lowered;

impl Dyadic {
    /// The number 0.
    #[inline(always)]
    pub fn zero() -> Dyadic
        ensures is { result ≡ zero_number }
        ensures value { value_of result ≡ zero_ℚ }
    {
        Dyadic {
            mantissa: 0,
            exponent: 0,
        }
    }

    /// The number 1.
    #[inline(always)]
    pub fn one() -> Dyadic
        ensures { value_of result ≡ one_ℚ }
    {
        Dyadic {
            mantissa: 1,
            exponent: 0,
        }
    }
}

/// The number digits * 2^two in its canonical form.
#[inline(always)]
pub fn canonical(digits: u64, two: i32) -> Dyadic
    requires { IsOnGrid (scaled (pos digits) two) }
    ensures { value_of result ≡ scaled (pos digits) two }
{
    if digits == 0 {
        return Dyadic::zero();
    }
    let part = odd_part(digits);
    Dyadic {
        mantissa: part.odd as i64,
        exponent: two + part.shift as i32,
    }
}

/// The number digits * 2^two, of either sign, in its canonical form.
#[inline(always)]
pub fn reduced(digits: i64, two: i32) -> Dyadic
    requires { IsOnGrid (scaled digits two) }
    ensures { value_of result ≡ scaled digits two }
{
    if digits == 0 {
        return Dyadic::zero();
    }
    let part = odd_part(digits.unsigned_abs());
    Dyadic {
        mantissa: lowered(digits, part.shift),
        exponent: two + part.shift as i32,
    }
}
