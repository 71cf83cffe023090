//! Products with powers of two, and whole numbers.

ghost use lib.IntN.{neg_ℤ};
ghost use Rattle.std.specs.Prelude.{◌≡◌, ◌<◌, ◌*◌, ◌^◌, ◌*ℤ◌, pos};
ghost use Rattle.std.specs.Int.RustNames.{unsigned_abs};
ghost use Rattle.fx_model.specs.Fraction.{◌*ℚ◌, zero_ℚ, one_ℚ};
ghost use Rattle.fx_model.specs.Powers.{two_to, whole};
ghost use Rattle.exact_fractions.specs.Exact.{value_of, Gives};
ghost use Rattle.exact_fractions.specs.Narrow.{GivesNumber, GivesSize};
ghost use Rattle.exact_fractions.specs.Twos.{LosesTwos};
ghost use Rattle.exact_fractions.specs.Wide.{numbers_of};

use crate::exact::{Exact, is_negative, lowest, signed};
use crate::narrow;

// A number without the twos that 2^k takes out of it, and what is left of k.
fn without_twos(number: u128, k: u32) -> (u128, u32)
    ensures { LosesTwos number k result.0 result.1 }
{
    let mut rest = number;
    let mut left = k;
    while left > 0 && rest % 2 == 0 {
        rest = rest / 2;
        left = left - 1;
    }
    (rest, left)
}

// 2^k.
#[tactic(auto, using(crate::proofs::Powers::power_kept, crate::proofs::Powers::power_small))]
fn power(k: u32) -> u128
    requires { k < 127 }
    ensures value { result ≡ 2 ^ k }
    ensures small { result < 2 ^ 127 }
{
    1 << k
}

// number * 2^k, where it is below 2^127.
#[tactic(auto, using(crate::proofs::Powers::far_number))]
fn raised(number: i128, k: u32) -> Option<i128>
    ensures { GivesNumber (number *ℤ pos (2 ^ k)) result }
{
    if number == 0 {
        return Some(0);
    }
    if k >= 127 {
        return None;
    }
    narrow::product(number, power(k))
}

// number * 2^k, where it is below 2^127.
#[tactic(auto, using(crate::proofs::Powers::far_raised))]
fn size_raised(number: u128, k: u32) -> Option<u128>
    requires positive { 0 < number }
    requires small { number < 2 ^ 127 }
    ensures { GivesSize (number * 2 ^ k) result }
{
    if k >= 127 {
        return None;
    }
    narrow::size_product(number, power(k))
}

// x * 2^k.
fn doubled(x: Exact, k: u32) -> Option<Exact>
    ensures { Gives (numbers_of (value_of x *ℚ two_to (pos k))) (value_of x *ℚ two_to (pos k))
        result }
{
    let (den, left) = without_twos(x.den(), k);
    match raised(x.num(), left) {
        Some(num) => Some(lowest(num, den)),
        None => None,
    }
}

// x / 2^k.
fn halved(x: Exact, k: u32) -> Option<Exact>
    ensures { Gives (numbers_of (value_of x *ℚ two_to (neg_ℤ (pos k))))
        (value_of x *ℚ two_to (neg_ℤ (pos k))) result }
{
    let (size, left) = without_twos(x.num().unsigned_abs(), k);
    match size_raised(x.den(), left) {
        Some(den) => Some(lowest(signed(is_negative(x.num()), size), den)),
        None => None,
    }
}

impl Exact {
    /// The whole number.
    #[tactic(auto, using(crate::proofs::Powers::whole_small, crate::proofs::Powers::over_one_is))]
    pub fn whole(number: i128) -> Exact
        requires { unsigned_abs number < 2 ^ 127 }
        ensures { value_of result ≡ whole number }
    {
        lowest(number, 1)
    }

    /// 0.
    #[tactic(auto, using(crate::proofs::Powers::zero_is))]
    pub fn zero() -> Exact
        ensures { value_of result ≡ zero_ℚ }
    {
        Exact::whole(0)
    }

    /// 1.
    #[tactic(auto, using(crate::proofs::Powers::one_is))]
    pub fn one() -> Exact
        ensures { value_of result ≡ one_ℚ }
    {
        Exact::whole(1)
    }

    /// The product with 2^k; `None` exactly where one of its numbers isn't below 2^127.
    pub fn scaled(self, k: i32) -> Option<Exact>
        ensures { Gives (numbers_of (value_of self *ℚ two_to k))
            (value_of self *ℚ two_to k) result }
    {
        if k < 0 {
            halved(self, k.unsigned_abs())
        } else {
            doubled(self, k as u32)
        }
    }
}
