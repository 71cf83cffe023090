//! Literals as fractions in lowest terms.

ghost use Rattle.std.specs.Prelude.{◌≡◌, ◌<◌, ◌^◌, pos, Some};
ghost use Rattle.fx_model.specs.Fraction.{◌*ℚ◌};
ghost use Rattle.fx_model.specs.Powers.{whole, scaled};
ghost use Rattle.fx_model.specs.Expression.{literal_value};
ghost use Rattle.literal.specs.Normal.{IsNormal};
ghost use Rattle.literal_order.specs.Values.{written_value, IsWritten};
ghost use Rattle.exact_fractions.specs.Exact.{Gives};
ghost use Rattle.exact_fractions.specs.Wide.{numbers_of};

use crate::exact::{Exact, reduced, signed};
use fx_model::Literal;
use literal_order::Written;

// A literal's value as number * 2^two / divisor.
#[derive(Clone, Copy)]
struct Ratio {
    number: u128,
    divisor: u128,
}

fn ratio_of(literal: Literal) -> Ratio
    requires { IsNormal literal }
    ensures value { whole (pos result.divisor) *ℚ literal_value literal
        ≡ scaled (pos result.number) literal.two }
    ensures some { 0 < result.divisor }
    ensures number { result.number < 2 ^ 127 }
    ensures divisor { result.divisor < 2 ^ 127 }
{
    let power = 10u128.pow(literal.ten.unsigned_abs());
    if literal.ten < 0 {
        Ratio {
            number: literal.num,
            divisor: power,
        }
    } else {
        Ratio {
            number: literal.num * power,
            divisor: 1,
        }
    }
}

impl Exact {
    /// What a literal with its sign stands for; `None` exactly where its numerator or denominator
    /// isn't below 2^127.
    pub fn of_written(number: Written) -> Option<Exact>
        requires { IsWritten (Some number) }
        ensures { Gives (numbers_of (written_value number)) (written_value number) result }
    {
        let ratio = ratio_of(number.literal);
        reduced(signed(number.negative, ratio.number), ratio.divisor).scaled(number.literal.two)
    }

    /// What a literal stands for; `None` exactly where its numerator or denominator isn't below
    /// 2^127.
    pub fn of_literal(literal: Literal) -> Option<Exact>
        requires { IsNormal literal }
        ensures { Gives (numbers_of (literal_value literal)) (literal_value literal) result }
    {
        Exact::of_written(Written {
            literal,
            negative: false,
        })
    }
}
