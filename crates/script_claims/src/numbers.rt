//! What the texts of words write.

ghost use Rattle.std.specs.Prelude.{◌≡◌, ◌≤◌, ◌≤ℤ◌, pos};
ghost use Rattle.script_claims.specs.Claims as spec;

use script_words::digits::number_below;

/// The number that digits write, and 1025 where they write more.
#[tactic(auto, unfolding(crate::specs::Claims::exponent_size))]
pub fn exponent_size(digits: &[u8]) -> i16
    ensures size { result ≡ pos (spec.exponent_size digits.now) }
    ensures small { result ≤ℤ pos 1025 }
{
    match number_below(1025, digits) {
        Some(number) => number as i16,
        None => 1025,
    }
}
