// Numbers that are known to be on the grid.
ghost use Rattle.std.specs.Prelude.{◌≡◌, pos, negsuc, ◌≤ℤ◌};
ghost use Rattle.fx_model.specs.Powers.{scaled, two_to};
ghost use Rattle.fx_model.specs.Grid.{IsOnGrid};
ghost use Rattle.dyadic.specs.Values.{value_of};

use dyadic::Dyadic;

/// The number `m * 2^place`, which has to be on the grid.
pub fn number(m: i64, place: i32) -> Dyadic
    requires { IsOnGrid (scaled m place) }
    ensures { value_of result ≡ scaled m place }
{
    match Dyadic::new(m, place) {
        Some(number) => number,
        None => unreachable!(),
    }
}

/// The number `2^place`, for a place from -512 to 512.
pub fn power(place: i32) -> Dyadic
    requires low { negsuc 511 ≤ℤ place }
    requires high { place ≤ℤ pos 512 }
    ensures { value_of result ≡ two_to place }
{
    number(1, place)
}
