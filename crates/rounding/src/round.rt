ghost use Rattle.std.specs.Prelude.{◌≡◌, ◌<◌, pos, negsuc, ◌+ℤ◌, ◌≤ℤ◌, ◌<ℤ◌};
ghost use Rattle.fx_model.specs.Rounded.{rounded};
ghost use Rattle.dyadic.specs.Values.{value_of};

use crate::neighbours::Neighbours;
use crate::number::number;
use dyadic::Dyadic;
use fx_model::Rounding;

/// The number rounded to a multiple of 2^lsb, which is on the grid again.
pub fn round_grid(r: Rounding, x: Dyadic) -> Dyadic
    requires low { negsuc 511 ≤ℤ r.lsb }
    requires high { r.lsb ≤ℤ pos 512 }
    ensures { value_of result ≡ rounded r.dir r.lsb (value_of x) }
{
    let lsb = r.lsb as i32;
    if lsb <= x.exponent() {
        return x;
    }
    let places = places_below(x.exponent(), lsb);
    number(Neighbours::of(x.mantissa(), places).chosen(r.dir), lsb)
}

/// By how many places `place` lies below `lsb`; it has to be below it, so this is above 0.
pub fn places_below(place: i32, lsb: i32) -> u32
    requires low { negsuc 511 ≤ℤ place }
    requires high { lsb ≤ℤ pos 512 }
    requires below { place <ℤ lsb }
    ensures value { lsb ≡ place +ℤ pos result }
    ensures positive { 0 < result }
{
    (lsb - place) as u32
}
