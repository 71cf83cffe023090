// Sums, whose parts may lie far apart.
ghost use Rattle.std.specs.Prelude.{◌≡◌, ◌+◌, ◌-◌, ◌*◌, ◌^◌, ◌≤◌, ◌<◌, ◌≤ℤ◌, ◌+ℤ◌, pos, negsuc};
ghost use Rattle.std.specs.Prelude.{true, false, not};
ghost use Rattle.std.specs.Int.RustNames.{unsigned_abs, int_lt};
ghost use Rattle.fx_model.specs.Fraction.{Fraction, ◌+ℚ◌};
ghost use Rattle.fx_model.specs.Powers.{scaled};
ghost use Rattle.fx_model.specs.Grid.{IsDown, IsUp, signed};
ghost use Rattle.dyadic.specs.Cut.{IsPlenty, IsSigned, IsSize, term_value};
ghost use Rattle.dyadic.specs.Ends.{bound_of};
ghost use Rattle.dyadic.specs.Values.{value_of};
ghost use Rattle.dyadic.specs.Places.{IsShort, IsFar};

use crate::cut::{LeadingDigits, split};
use crate::floor::Floor;
use crate::number::{Dyadic, End, again};
use crate::products::Signed;
use crate::rounding::{down, up};
use crate::shift::shifted;

/// m * 2^e, with a mantissa of up to 66 bits.
#[derive(Clone, Copy)]
pub struct Term {
    pub mantissa: i128,
    pub exponent: i32,
}

impl Term {
    fn is_negative(self) -> bool
        ensures { result ≡ int_lt self.mantissa (pos 0) }
    {
        self.mantissa < 0
    }

    fn size(self) -> u128
        ensures { result ≡ unsigned_abs self.mantissa }
    {
        self.mantissa.unsigned_abs()
    }

    // How much the exponent is above the other's.
    fn above(self, other: Term) -> u32
        requires low { negsuc 511 ≤ℤ other.exponent }
        requires high { self.exponent ≤ℤ pos 572 }
        requires ordered { other.exponent ≤ℤ self.exponent }
        ensures value { self.exponent ≡ other.exponent +ℤ pos result }
        ensures small { result ≤ 1084 }
    {
        (self.exponent - other.exponent) as u32
    }
}

/// The sum of two terms. What lies far below the first digits is only known to be there.
#[inline(always)]
pub fn sum(a: Term, b: Term) -> Signed
    requires a_short { IsShort a }
    requires b_short { IsShort b }
    ensures cuts { IsSigned result (term_value a +ℚ term_value b) }
    ensures long { IsPlenty result.size }
    ensures low { negsuc 511 ≤ℤ result.size.two }
    ensures high { result.size.two ≤ℤ pos 2600 }
{
    if a.mantissa == 0 {
        alone(b)
    } else if b.mantissa == 0 {
        alone(a)
    } else if b.exponent <= a.exponent {
        ordered_sum(a, b)
    } else {
        ordered_sum(b, a)
    }
}

// A term as its sign and size.
fn alone(a: Term) -> Signed
    ensures size { signed result.negative (term_value a)
        ≡ scaled (pos result.size.digits) result.size.two }
    ensures exact { result.size.inexact ≡ false }
    ensures two { result.size.two ≡ a.exponent }
{
    Signed {
        negative: a.is_negative(),
        size: LeadingDigits::exact(a.size(), a.exponent),
    }
}

// The sum where the first term isn't 0 and has the greater exponent.
#[inline(always)]
fn ordered_sum(a: Term, b: Term) -> Signed
    requires a_short { IsShort a }
    requires b_short { IsShort b }
    requires a_some { 0 < unsigned_abs a.mantissa }
    requires ordered { b.exponent ≤ℤ a.exponent }
    ensures cuts { IsSigned result (term_value a +ℚ term_value b) }
    ensures long { IsPlenty result.size }
    ensures low { negsuc 511 ≤ℤ result.size.two }
    ensures high { result.size.two ≤ℤ pos 2600 }
{
    let gap = a.above(b);
    if gap <= 60 {
        return alone(near_term(a, b, gap));
    }
    let size = a.size();
    let low = b.size();
    let negative = a.is_negative();
    let minus = negative ^ b.is_negative();
    let room = room_above(size);
    if gap > room {
        Signed {
            negative,
            size: far_sum(size << room, low, gap - room, minus, b.exponent),
        }
    } else {
        near_sum(negative, minus, size << gap, low, b.exponent)
    }
}

// The sum of two terms whose places are near, as one term.
fn near_term(a: Term, b: Term, gap: u32) -> Term
    requires a_small { unsigned_abs a.mantissa < 73786976294838206464 }
    requires b_small { unsigned_abs b.mantissa < 73786976294838206464 }
    requires few { gap ≤ 60 }
    requires places { a.exponent ≡ b.exponent +ℤ pos gap }
    ensures value { term_value result ≡ term_value a +ℚ term_value b }
    ensures exponent { result.exponent ≡ b.exponent }
{
    Term {
        mantissa: shifted(a.mantissa, gap) + b.mantissa,
        exponent: b.exponent,
    }
}

// How far a number of up to 66 bits can be shifted to have 126 bits.
fn room_above(size: u128) -> u32
    requires some { 0 < size }
    requires small { size < 73786976294838206464 }
    ensures long { 42535295865117307932921825928971026432 ≤ size * 2 ^ result }
    ensures small { size * 2 ^ result < 85070591730234615865843651857942052864 }
    ensures range { result ≤ 125 }
{
    size.leading_zeros() - 2
}

// The sum of two sizes with their signs, which are equal where `minus` is false.
fn near_sum(negative: bool, minus: bool, high: u128, low: u128, base: i32) -> Signed
    requires high_small { high < 85070591730234615865843651857942052864 }
    requires low_small { low < 73786976294838206464 }
    ensures plus { minus ≡ false
        → (result.negative ≡ negative) × (result.size.digits ≡ high + low) }
    ensures minus { minus ≡ true → low ≤ high
        → (result.negative ≡ negative) × (result.size.digits ≡ high - low) }
    ensures swapped { minus ≡ true → high < low
        → (result.negative ≡ not negative) × (result.size.digits ≡ low - high) }
    ensures exact { result.size.inexact ≡ false }
    ensures two { result.size.two ≡ base }
{
    if !minus {
        Signed {
            negative,
            size: LeadingDigits::exact(high + low, base),
        }
    } else if low <= high {
        Signed {
            negative,
            size: LeadingDigits::exact(high - low, base),
        }
    } else {
        Signed {
            negative: !negative,
            size: LeadingDigits::exact(low - high, base),
        }
    }
}

// `top * 2^lost` with `low` added or taken away, all at 2^base, down to the place of `top`.
fn far_sum(top: u128, low: u128, lost: u32, minus: bool, base: i32) -> LeadingDigits
    requires { IsFar top low lost base }
    ensures plus { minus ≡ false → (x : Fraction)
        → x ≡ scaled (pos (top * 2 ^ lost + low)) base → IsSize result x }
    ensures minus { minus ≡ true → (x : Fraction)
        → x ≡ scaled (pos (top * 2 ^ lost - low)) base → IsSize result x }
    ensures long { 21267647932558653966460912964485513216 ≤ result.digits }
    ensures two { result.two ≡ base +ℤ pos lost }
{
    let parts = split(low, lost);
    let kept = parts.kept;
    let rest = parts.rest;
    let two = base + lost as i32;
    if !minus {
        return LeadingDigits {
            digits: top + kept,
            two,
            inexact: 0 < rest,
        };
    }
    if rest == 0 {
        return LeadingDigits::exact(top - kept, two);
    }
    LeadingDigits {
        digits: top - kept - 1,
        two,
        inexact: true,
    }
}

/// The number as a term, of the same mantissa and exponent.
pub fn term_of(a: Dyadic) -> Term
    ensures mantissa { result.mantissa ≡ a.mantissa }
    ensures exponent { result.exponent ≡ a.exponent }
    ensures size { unsigned_abs result.mantissa < 1152921504606846976 }
    ensures low { negsuc 511 ≤ℤ result.exponent }
    ensures high { result.exponent ≤ℤ pos 572 }
{
    Term {
        mantissa: a.mantissa() as i128,
        exponent: a.exponent(),
    }
}

// The sum rounded down, whatever its places are. It stands apart, as it is long and seldom needed.
#[inline(never)]
fn long_sum_down(a: Dyadic, b: Dyadic) -> End
    ensures { IsDown (value_of a +ℚ value_of b) (bound_of result) }
{
    down(sum(term_of(a), term_of(b)))
}

// The sum rounded up.
#[inline(never)]
fn long_sum_up(a: Dyadic, b: Dyadic) -> End
    ensures { IsUp (value_of a +ℚ value_of b) (bound_of result) }
{
    up(sum(term_of(a), term_of(b)))
}

/// The greatest grid number that is at most the sum.
#[inline(always)]
pub fn add_down(a: Dyadic, b: Dyadic) -> End
    ensures { IsDown (value_of a +ℚ value_of b) (bound_of result) }
{
    match Floor::sum(a, b) {
        Some(floor) => End::At(floor.rounded()),
        None => again(long_sum_down(a, b)),
    }
}

/// The least grid number that is at least the sum.
#[inline(always)]
pub fn add_up(a: Dyadic, b: Dyadic) -> End
    ensures { IsUp (value_of a +ℚ value_of b) (bound_of result) }
{
    let left = a.neg();
    let right = b.neg();
    match Floor::sum(left, right) {
        Some(floor) => End::At(floor.rounded().neg()),
        None => again(long_sum_up(a, b)),
    }
}
