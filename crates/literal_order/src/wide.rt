//! Whole numbers of 256 bits.

ghost use Rattle.std.specs.Prelude.{◌≡◌, ◌↔◌, ◌<◌, ◌*◌, ◌+◌, ◌/◌, ◌^◌, IsTrue};
ghost use Rattle.literal_order.specs.Sizes.{size_of};

/// The number high * 2^128 + low.
#[derive(Clone, Copy)]
pub struct Wide {
    pub high: u128,
    pub low: u128,
}

/// The product of two numbers, which always fits.
pub fn product(a: u128, b: u128) -> Wide
    ensures { size_of result ≡ a * b }
{
    let (low, high) = a.carrying_mul(b, 0);
    Wide { high, low }
}

/// Whether the first is below the second.
pub fn is_less(a: Wide, b: Wide) -> bool
    ensures { IsTrue result ↔ size_of a < size_of b }
{
    a.high < b.high || a.high == b.high && a.low < b.low
}

fn power_of_two(places: u32) -> u128
    requires { places < 128 }
    ensures { result ≡ 2 ^ places }
{
    1u128 << places
}

// A half without its lowest bits.
fn half_shifted(half: u128, places: u32) -> u128
    ensures { result ≡ half / 2 ^ places }
{
    if places < 128 {
        half / power_of_two(places)
    } else {
        0
    }
}

// The number without its lowest bits, fewer than a half has.
fn shifted_few(number: Wide, places: u32) -> Wide
    requires some { 0 < places }
    requires few { places < 128 }
    ensures { size_of result ≡ size_of number / 2 ^ places }
{
    let lost = power_of_two(places);
    let moved = power_of_two(128 - places);
    Wide {
        high: number.high / lost,
        low: number.high % lost * moved + number.low / lost,
    }
}

// The number without its lowest bits.
fn shifted(number: Wide, places: u32) -> Wide
    ensures { size_of result ≡ size_of number / 2 ^ places }
{
    if places == 0 {
        number
    } else if places < 128 {
        shifted_few(number, places)
    } else {
        Wide {
            high: 0,
            low: half_shifted(number.high, places - 128),
        }
    }
}

fn is_some(number: Wide) -> bool
    ensures { IsTrue result ↔ 0 < size_of number }
{
    number.high > 0 || number.low > 0
}

fn one_less(number: Wide) -> Wide
    requires { 0 < size_of number }
    ensures { size_of result + 1 ≡ size_of number }
{
    if number.low > 0 {
        Wide {
            high: number.high,
            low: number.low - 1,
        }
    } else {
        Wide {
            high: number.high - 1,
            low: u128::MAX,
        }
    }
}

/// Whether the first is below the second times a power of two.
pub fn is_below_raised(a: Wide, b: Wide, places: u32) -> bool
    ensures { IsTrue result ↔ size_of a < size_of b * 2 ^ places }
{
    is_less(shifted(a, places), b)
}

/// Whether the first times a power of two is below the second.
pub fn is_raised_below(a: Wide, places: u32, b: Wide) -> bool
    ensures { IsTrue result ↔ size_of a * 2 ^ places < size_of b }
{
    if is_some(b) {
        !is_less(shifted(one_less(b), places), a)
    } else {
        false
    }
}
