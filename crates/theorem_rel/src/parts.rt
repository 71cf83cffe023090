// What the rules are made of.
ghost use Rattle.std.specs.Prelude.{◌≡◌};
ghost use Rattle.facts.specs.Parts.{error_of_part};

use facts::RelativeError;
use interval::Interval;

/// The interval, where there is one, as relative errors.
#[inline(always)]
pub fn error_within(part: Option<Interval>) -> Option<RelativeError>
    ensures { result ≡ error_of_part part }
{
    match part {
        Some(i) => RelativeError::new(i),
        None => None,
    }
}
