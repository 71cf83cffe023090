// Multiples of a power of two.
ghost use Rattle.std.specs.Prelude.{◌≡◌, ◌<◌, ◌^◌, ◌≤ℤ◌, ◌<ℤ◌, ◌+ℤ◌, pos, negsuc};
ghost use Rattle.std.specs.Int.RustNames.{unsigned_abs};
ghost use Rattle.std.specs.Int.Signed.{shr_z};
ghost use Rattle.dyadic.specs.Values.{value_of};
ghost use Rattle.dyadic.specs.Ends.{bound_of};
ghost use Rattle.interval.specs.Multiples.{IsMultipleDown, IsEndDown, IsEndUp};

use crate::ends::opposite;
use crate::interval::Interval;
use dyadic::{Dyadic, End};

impl Interval {
    ghost use Rattle.std.specs.Prelude.{◌↔◌, IsNone, IfSome};
    ghost use Rattle.fx_model.specs.Fraction.{Fraction};
    ghost use Rattle.fx_model.specs.Enclosure.{MultiplesIn, IsEnclosure};
    ghost use Rattle.interval.specs.Intervals.{range_of};

    /// The least interval that holds its multiples of 2^k. None where it holds none.
    pub fn shrink(self, k: i32) -> Option<Interval>
        requires low { negsuc 1023 ≤ℤ k }
        requires high { k ≤ℤ pos 512 }
        ensures none { IsNone result ↔ ((x : Fraction) → ¬ MultiplesIn k (range_of self) x) }
        ensures best { IfSome result
            (λ made. IsEnclosure (MultiplesIn k (range_of self)) (range_of made)) }
    {
        Interval::new(end_up(self.lo, k), end_down(self.hi, k))
    }
}

// How far the exponent k is above another.
fn places_above(k: i32, exponent: i32) -> u32
    requires low { negsuc 1023 ≤ℤ exponent }
    requires high { k ≤ℤ pos 1024 }
    requires above { exponent <ℤ k }
    ensures { k ≡ exponent +ℤ pos result }
{
    (k - exponent) as u32
}

// The mantissa without its last places, rounded down.
fn shifted(mantissa: i64, places: u32) -> i64
    requires { unsigned_abs mantissa < 1152921504606846976 }
    ensures value { result ≡ shr_z mantissa (2 ^ places) }
    ensures size { unsigned_abs result < 1152921504606846976 }
{
    mantissa >> places.min(63)
}

// The greatest multiple of 2^k that is at most the number.
fn multiple_down(x: Dyadic, k: i32) -> Dyadic
    requires low { negsuc 1023 ≤ℤ k }
    requires high { k ≤ℤ pos 512 }
    ensures { IsMultipleDown k (value_of x) (value_of result) }
{
    if x.exponent() >= k {
        return x;
    }
    let places = places_above(k, x.exponent());
    match Dyadic::new(shifted(x.mantissa(), places), k) {
        Some(multiple) => multiple,
        None => x,
    }
}

// The greatest multiple that is at most a finite end; an infinite end stays.
fn end_down(end: End, k: i32) -> End
    requires low { negsuc 1023 ≤ℤ k }
    requires high { k ≤ℤ pos 512 }
    ensures { IsEndDown k (bound_of end) (bound_of result) }
{
    match end {
        End::Low => End::Low,
        End::At(x) => End::At(multiple_down(x, k)),
        End::High => End::High,
    }
}

// The least multiple that is at least a finite end; an infinite end stays.
fn end_up(end: End, k: i32) -> End
    requires low { negsuc 1023 ≤ℤ k }
    requires high { k ≤ℤ pos 512 }
    ensures { IsEndUp k (bound_of end) (bound_of result) }
{
    opposite(end_down(opposite(end), k))
}
