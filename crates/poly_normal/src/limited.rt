ghost use Rattle.std.specs.Prelude.{◌<◌, ◌^◌, ◌≤◌, length};
ghost use Rattle.poly_normal.specs.Rows.{IsJoined};
ghost use Rattle.poly_normal.specs.Uniqueness.{joined-prop};
ghost use Rattle.poly_normal.specs.TermsOf.{polynomial_of};

use crate::terms::Terms;

/// A polynomial with its weight and degree, within the limits.
#[derive(Drop)]
pub struct Limited {
    pub terms: Terms,
    pub weight: u128,
    pub degree: u32,
    ghost joined: { IsJoined terms.width degree weight
        (polynomial_of terms) } by { joined-prop terms.width degree weight (polynomial_of terms) },
    ghost light: { weight < 2 ^ 127 },
    ghost low: { degree ≤ 4096 },
    ghost few: { length (polynomial_of terms) ≤ 256 },
}
