ghost use Rattle.std.specs.Prelude.{◌≡◌, ◌↔◌, ℤ, pos, negsuc, ◌+ℤ◌, ◌≤ℤ◌, Option};
ghost use Rattle.fx_model.specs.Fraction.{Fraction, ◌+ℚ◌, ◌-ℚ◌, ◌≤ℚ◌};
ghost use Rattle.fx_model.specs.Powers.{whole, IsMultiple};
ghost use Rattle.fx_model.specs.Grid.{IsOnGrid};
ghost use Rattle.fx_model.specs.Enclosure.{Lies};
ghost use Rattle.fx_model.specs.Rounded.{floor, ceiling, rounded};
ghost use Rattle.fx_model.specs.declared.Direction.{Direction};
ghost use Rattle.rounding.specs.declared.sign.Sign.{Sign};
ghost use Rattle.rounding.specs.Errors.{HasSign, HasPlace, IsPossible, error_range};

/// Nothing is done. The clauses tell a caller what floors and ceilings are of sums and of ordered
/// numbers.
pub fn floors()
    ensures floor_monotone { (x y : Fraction) → x ≤ℚ y → floor x ≤ℤ floor y }
    ensures floor_of_sum { (x : Fraction) (z : ℤ) → floor (x +ℚ whole z) ≡ floor x +ℤ z }
    ensures floor_of_whole { (z : ℤ) → floor (whole z) ≡ z }
    ensures ceiling_monotone { (x y : Fraction) → x ≤ℚ y → ceiling x ≤ℤ ceiling y }
    ensures ceiling_of_sum { (x : Fraction) (z : ℤ) → ceiling (x +ℚ whole z) ≡ ceiling x +ℤ z }
    ensures ceiling_of_whole { (z : ℤ) → ceiling (whole z) ≡ z }
{}

/// Nothing is done. The clauses tell a caller that each direction is monotone, gives a multiple of
/// its unit, leaves multiples as they are, and stays on the grid.
pub fn roundings()
    ensures monotone { (d : Direction) (l : ℤ) (x y : Fraction) → x ≤ℚ y
        → rounded d l x ≤ℚ rounded d l y }
    ensures multiple { (d : Direction) (l : ℤ) (x : Fraction) → IsMultiple l (rounded d l x) }
    ensures kept { (d : Direction) (k l : ℤ) (x : Fraction) → l ≤ℤ k
        → IsMultiple k x → rounded d l x ≡ x }
    ensures on_grid { (d : Direction) (l : ℤ) (x : Fraction) → negsuc 511 ≤ℤ l → l ≤ℤ pos 512
        → IsOnGrid x → IsOnGrid (rounded d l x) }
{}

/// Nothing is done. The clauses tell a caller that the error of a rounding is a possible one, and
/// which errors are possible by direction, by sign and by place at once.
pub fn errors()
    ensures lies { (d : Direction) (l : ℤ) (sign : Sign) (place : Option ℤ) (x : Fraction)
        → HasSign sign x → HasPlace place x
        → Lies (error_range d l sign place) (rounded d l x -ℚ x) }
    ensures meet { (d : Direction) (l : ℤ) (sign : Sign) (place : Option ℤ) (e : Fraction)
        → IsPossible d l sign place e ↔ Lies (error_range d l sign place) e }
{}
