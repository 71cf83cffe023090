//! What the last line of an evaluation tells. Nothing here is done at run time.

ghost use Rattle.point_eval.specs.Told.{MeetsIsTold};

use point_values::tests_are_told;

/// Nothing is done. The clause tells a caller that a point's last line says `meets` exactly where
/// its assignment meets the script.
pub fn meeting_is_told()
    ensures { MeetsIsTold }
{
    tests_are_told();
}
