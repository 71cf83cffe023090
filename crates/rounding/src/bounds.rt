ghost use Rattle.std.specs.Prelude.{◌≡◌, ◌≤◌, ◌^◌, pos, negsuc, ◌+ℤ◌, ◌≤ℤ◌, ◌<ℤ◌, false};
ghost use Rattle.fx_model.specs.Fraction.{Fraction, ◌-ℚ◌, ◌≤ℚ◌, zero_ℚ};
ghost use Rattle.fx_model.specs.Powers.{two_to};
ghost use Rattle.fx_model.specs.Grid.{At, IsUp};
ghost use Rattle.fx_model.specs.Enclosure.{Lies, IsEnclosure};
ghost use Rattle.grid_words.specs.Products.{closed};
ghost use Rattle.dyadic.specs.Values.{value_of};
ghost use Rattle.interval.specs.Intervals.{range_of};
ghost use Rattle.rounding.specs.Errors.{IsPossible, error_range, half_of, signed_errors};
ghost use Rattle.rounding.specs.Errors.{largest_error, keeps};
ghost use Rattle.rounding.specs.Spans.{spanned};

use crate::number::{number, power};
use crate::round::places_below;
use crate::sign::Sign;
use dyadic::{Dyadic, End};
use fx_model::{Direction, Rounding};
use interval::Interval;

// To which side errors go, and how far: the unit or half of it.
#[derive(Clone, Copy)]
enum Span {
    Nowhere,
    Leftward,
    Rightward,
    Sideward,
    Near,
}

fn span_of(dir: Direction, sign: Sign) -> Span
    ensures { (u h : Fraction) → spanned result u h ≡ signed_errors sign dir u h }
{
    match dir {
        Direction::Dn => Span::Leftward,
        Direction::Up => Span::Rightward,
        Direction::Od => Span::Sideward,
        Direction::Zr => match sign {
            Sign::Unknown => Span::Sideward,
            Sign::NotNegative => Span::Leftward,
            Sign::NotPositive => Span::Rightward,
            Sign::Zero => Span::Nowhere,
        },
        Direction::Aw => match sign {
            Sign::Unknown => Span::Sideward,
            Sign::NotNegative => Span::Rightward,
            Sign::NotPositive => Span::Leftward,
            Sign::Zero => Span::Nowhere,
        },
        _ => Span::Near,
    }
}

// The least number of the grid at or above half of 2^lsb.
fn half_up(lsb: i32) -> Dyadic
    requires low { negsuc 511 ≤ℤ lsb }
    requires high { lsb ≤ℤ pos 512 }
    ensures { IsUp (half_of lsb) (At (value_of result)) }
{
    if lsb > -512 {
        power(lsb - 1)
    } else {
        power(lsb)
    }
}

// The least number of the grid at or above 2^lsb - 2^place.
fn gap_up(lsb: i32, place: i32) -> Dyadic
    requires low { negsuc 511 ≤ℤ lsb }
    requires high { lsb ≤ℤ pos 512 }
    requires below { place <ℤ lsb }
    ensures { IsUp (two_to lsb -ℚ two_to place) (At (value_of result)) }
{
    if place < -512 {
        return power(lsb);
    }
    if place < lsb - 60 {
        return power(lsb);
    }
    gap(lsb, place)
}

// 2^lsb - 2^place, which the grid has.
fn gap(lsb: i32, place: i32) -> Dyadic
    requires low { negsuc 511 ≤ℤ place }
    requires high { lsb ≤ℤ pos 512 }
    requires below { place <ℤ lsb }
    requires near { lsb ≤ℤ (place +ℤ pos 60) }
    ensures { value_of result ≡ two_to lsb -ℚ two_to place }
{
    number(ones(places_below(place, lsb)), place)
}

// A number of this many binary ones.
fn ones(places: u32) -> i64
    requires { places ≤ 60 }
    ensures { result +ℤ pos 1 ≡ pos (2 ^ places) }
{
    (1i64 << places) - 1
}

// The least number of the grid at or above the size of the largest error.
fn largest_up(lsb: i32, fix: Option<i16>) -> Dyadic
    requires low { negsuc 511 ≤ℤ lsb }
    requires high { lsb ≤ℤ pos 512 }
    requires below { keeps lsb fix ≡ false }
    ensures { IsUp (largest_error lsb fix) (At (value_of result)) }
{
    match fix {
        Some(place) => gap_up(lsb, place as i32),
        None => power(lsb),
    }
}

// The interval from one number to another.
fn between(low: Dyadic, high: Dyadic) -> Interval
    requires { value_of low ≤ℚ value_of high }
    ensures { range_of result ≡ closed (value_of low) (value_of high) }
{
    match Interval::new(End::At(low), End::At(high)) {
        Some(interval) => interval,
        None => unreachable!(),
    }
}

// Whether a number is a multiple of the unit already.
fn is_kept(lsb: i32, fix: Option<i16>) -> bool
    ensures { result ≡ keeps lsb fix }
{
    match fix {
        Some(place) => lsb <= place as i32,
        None => false,
    }
}

// The interval that goes to the sides of a span, by the unit or by half of it.
fn spread(span: Span, unit: Dyadic, half: Dyadic) -> Interval
    requires unit { zero_ℚ ≤ℚ value_of unit }
    requires half { zero_ℚ ≤ℚ value_of half }
    ensures { range_of result ≡ spanned span (value_of unit) (value_of half) }
{
    let zero = number(0, 0);
    match span {
        Span::Nowhere => between(zero, zero),
        Span::Leftward => between(unit.neg(), zero),
        Span::Rightward => between(zero, unit),
        Span::Sideward => between(unit.neg(), unit),
        Span::Near => between(half.neg(), half),
    }
}

/// The least interval of the grid that holds each error that the table allows a rounding: by its
/// direction, by what is known of the number's sign, and where the number is known to be a multiple
/// of 2^fix.
pub fn error_interval(r: Rounding, sign: Sign, fix: Option<i16>) -> Interval
    requires low { negsuc 511 ≤ℤ r.lsb }
    requires high { r.lsb ≤ℤ pos 512 }
    ensures cases { IsEnclosure (Lies (error_range r.dir r.lsb sign fix)) (range_of result) }
    ensures meet { IsEnclosure (IsPossible r.dir r.lsb sign fix) (range_of result) }
{
    let lsb = r.lsb as i32;
    if is_kept(lsb, fix) {
        return spread(Span::Nowhere, power(lsb), power(lsb));
    }
    spread(span_of(r.dir, sign), largest_up(lsb, fix), half_up(lsb))
}
