ghost use Rattle.std.specs.Prelude.{◌≡◌, ◌⊎◌, ◌↔◌, ◌≤◌, ◌<◌, ◌*◌, ◌%◌, ◌^◌, ◌≤ℤ◌, ◌+ℤ◌, pos};
ghost use Rattle.std.specs.Prelude.{negsuc, IsTrue, MatchOption};
ghost use Rattle.std.specs.Int.RustNames.{unsigned_abs, int_lt};
ghost use Rattle.fx_model.specs.Powers.{scaled};
ghost use Rattle.fx_model.specs.Grid.{IsOnGrid};
ghost use Rattle.dyadic.specs.Canonical.{IsCanonical, IsCanonical-prop};

mod form;

pub use form::{canonical, reduced};

/// A number of the grid, mantissa * 2^exponent, with an odd mantissa or 0 * 2^0.
#[derive(Clone, Copy, Debug)]
pub struct Dyadic {
    mantissa: i64,
    exponent: i32,
    pub ghost canonical: { IsCanonical mantissa
        exponent } by { IsCanonical-prop mantissa exponent },
}

/// An end of an interval: minus infinity, a number of the grid, or plus infinity.
#[derive(Clone, Copy, Debug)]
pub enum End {
    Low,
    At(Dyadic),
    High,
}

/// The same end, taken apart and made anew: one that a call returned by memory then lies in
/// registers, as one that was made here.
#[inline(always)]
pub fn again(end: End) -> End
    ensures { result ≡ end }
{
    match end {
        End::Low => End::Low,
        End::At(number) => End::At(number),
        End::High => End::High,
    }
}

fn is_negative(m: i64) -> bool
    ensures { result ≡ int_lt m (pos 0) }
{
    m < 0
}

// A size as odd * 2^shift.
#[derive(Clone, Copy)]
struct OddPart {
    odd: u64,
    shift: u32,
}

fn odd_part(size: u64) -> OddPart
    requires { 0 < size }
    ensures odd { result.odd % 2 ≡ 1 }
    ensures value { result.odd * 2 ^ result.shift ≡ size }
    ensures shift { result.shift < 64 }
{
    let shift = size.trailing_zeros();
    OddPart {
        odd: size >> shift,
        shift,
    }
}

impl OddPart {
    // Whether odd * 2^(two + shift) is on the grid. Where its place is above 512, it has fewer than
    // 60 digits.
    fn is_on_grid(self, two: i32) -> bool
        requires odd { self.odd % 2 ≡ 1 }
        requires shift { self.shift < 64 }
        ensures { IsTrue result ↔ IsOnGrid (scaled (pos self.odd) (two +ℤ pos self.shift)) }
    {
        let place = two as i64 + self.shift as i64;
        if place < -512 {
            false
        } else if place > 571 {
            false
        } else {
            self.odd >> room_at(place) == 0
        }
    }
}

// How many digits a grid number may have that ends at a place.
fn room_at(place: i64) -> u32
    requires low { negsuc 511 ≤ℤ place }
    requires high { place ≤ℤ pos 571 }
    ensures most { result ≤ 60 }
    ensures top { (place +ℤ pos result) ≤ℤ pos 572 }
    ensures tight { (result ≡ 60) ⊎ ((place +ℤ pos result) ≡ pos 572) }
{
    if place > 512 {
        (572 - place) as u32
    } else {
        60
    }
}

impl Dyadic {
    ghost use Rattle.fx_model.specs.Fraction.{neg_ℚ, zero_ℚ};
    ghost use Rattle.dyadic.specs.Values.{value_of};

    /// The number m * 2^e. None exactly where that is off the grid.
    pub fn new(m: i64, e: i32) -> Option<Dyadic>
        ensures { MatchOption result (¬ (IsOnGrid (scaled m e))) (λ d. value_of d ≡ scaled m e) }
    {
        match Dyadic::from_size(m.unsigned_abs(), e) {
            Some(size) => Some(if is_negative(m) { size.neg() } else { size }),
            None => None,
        }
    }

    /// Odd, or 0; below 2^60 in size.
    #[inline(always)]
    pub fn mantissa(self) -> i64
        ensures value { result ≡ self.mantissa }
        ensures size { unsigned_abs result < 1152921504606846976 }
    {
        self.mantissa
    }

    /// From -512 to 571; 0 where the mantissa is 0.
    #[inline(always)]
    pub fn exponent(self) -> i32
        ensures value { result ≡ self.exponent }
        ensures low { negsuc 511 ≤ℤ result }
        ensures high { result ≤ℤ pos 571 }
    {
        self.exponent
    }

    /// Whether the two have one value.
    pub fn is_same(self, other: Dyadic) -> bool
        ensures { IsTrue result ↔ (value_of self ≡ value_of other) }
    {
        self.mantissa == other.mantissa && self.exponent == other.exponent
    }

    /// Whether the number is 0.
    #[inline(always)]
    pub fn is_zero(self) -> bool
        ensures { IsTrue result ↔ (value_of self ≡ zero_ℚ) }
    {
        self.mantissa == 0
    }

    /// The number with the other sign.
    #[inline(always)]
    pub fn neg(self) -> Dyadic
        ensures { value_of result ≡ neg_ℚ (value_of self) }
    {
        Dyadic {
            mantissa: -self.mantissa,
            exponent: self.exponent,
        }
    }

    // The number size * 2^e, unless that is off the grid.
    fn from_size(size: u64, e: i32) -> Option<Dyadic>
        ensures { MatchOption result (¬ (IsOnGrid (scaled (pos size) e)))
            (λ d. value_of d ≡ scaled (pos size) e) }
    {
        if size == 0 {
            return Some(canonical(0, e));
        }
        if odd_part(size).is_on_grid(e) {
            Some(canonical(size, e))
        } else {
            None
        }
    }
}
