//! Normal forms.

ghost use Rattle.std.specs.Prelude.{◌%◌, ◌^◌, ◌<◌, ◌+◌, ◌-◌, pos, negsuc};
ghost use Rattle.literal.specs.Spelling.{IsBetween};
ghost use Rattle.literal.specs.Normal.{IsNormal, IsNormalOf, IsSmall, TakesTensOut, TakesTwosOut};

use crate::scan::Form;
use fx_model::Literal;

/// The normal form of a number within the limits.
pub fn normal_form(form: Form, number: Literal) -> Literal
    requires { IsSmall form number }
    ensures same { IsNormalOf form number result }
    ensures normal { IsNormal result }
{
    if number.num == 0 {
        return Literal {
            num: 0,
            two: 0,
            ten: 0,
        };
    }
    match form {
        Form::Decimal => without_tens(number.num, number.ten),
        _ => without_twos(number.num, number.two),
    }
}

fn without_tens(num: u128, ten: i32) -> Literal
    requires num { (0 < num) × (num < 10 ^ 30) }
    requires ten { IsBetween (negsuc 29) (pos 8) ten }
    ensures { TakesTensOut num ten result }
{
    let mut rest = num;
    let mut lost: u32 = 0;
    while rest % 10 == 0 {
        rest /= 10;
        lost += 1;
    }
    Literal {
        num: rest,
        two: 0,
        ten: ten + lost as i32,
    }
}

fn without_twos(num: u128, two: i32) -> Literal
    requires num { (0 < num) × (num < 16 ^ 25) }
    requires two { IsBetween (negsuc 511) (pos 512) two }
    ensures { TakesTwosOut num two result }
{
    let lost = num.trailing_zeros();
    Literal {
        num: num >> lost,
        two: two + lost as i32,
        ten: 0,
    }
}
