ghost use Rattle.std.specs.Prelude.{◌≡◌};
ghost use Rattle.exact_fractions.specs.Divisors.{gcd};

/// The greatest number that divides both; where one of them is 0 it is the other.
pub fn greatest_divisor(a: u128, b: u128) -> u128
    ensures { result ≡ gcd a b }
{
    let mut x = a;
    let mut y = b;
    while y != 0 {
        let rest = x % y;
        x = y;
        y = rest;
    }
    x
}
