// Exponents of multiples.
ghost use Rattle.std.specs.Prelude.{◌≡◌, ◌≤ℤ◌, pos, negsuc};
ghost use Rattle.facts.specs.Places.{kept, sum_place, lesser_place};

use facts::FixPlace;

/// The place with this exponent, lowered to 512 where it is above; `None` below -1024.
pub fn keep(exponent: i32) -> Option<FixPlace>
    requires low { negsuc 2047 ≤ℤ exponent }
    requires high { exponent ≤ℤ pos 1024 }
    ensures { result ≡ kept exponent }
{
    if 512 < exponent {
        FixPlace::new(512)
    } else {
        FixPlace::new(exponent as i16)
    }
}

/// The place of a product, by those of its factors; `None` where it is below -1024.
pub fn product_place(k: FixPlace, n: FixPlace) -> Option<FixPlace>
    ensures { result ≡ sum_place k n }
{
    keep(k.exponent() as i32 + n.exponent() as i32)
}

/// The lesser place: what is a multiple of either power of two is one of its power.
pub fn lesser(k: FixPlace, n: FixPlace) -> FixPlace
    ensures { result ≡ lesser_place k n }
{
    if k.exponent() < n.exponent() { k } else { n }
}
