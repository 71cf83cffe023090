// Constraints on one side, as a hint's needs write them.
ghost use Rattle.std.specs.Prelude.{◌≡◌, Some};
ghost use Rattle.fx_model.specs.Grid.{le_bound};
ghost use Rattle.dyadic.specs.Ends.{bound_of};
ghost use Rattle.literal_order.specs.Values.{IsWritten};
ghost use Rattle.script_bounds.specs.Needs.{below_of, above_of, is_point};

use dyadic::End;
use interval::Interval;
use literal_order::Written;

/// What numbers of the grid below the bound have in common, or at most the bound where it isn't
/// strict: the end that they are at most, and whether that end itself is left out.
pub fn below(bound: Written, strict: bool) -> (End, bool)
    requires { IsWritten (Some bound) }
    ensures { result ≡ below_of bound strict }
{
    let point = bound.enclosed();
    (point.lo(), strict && is_point(point))
}

/// The same of numbers above the bound.
pub fn above(bound: Written, strict: bool) -> (End, bool)
    requires { IsWritten (Some bound) }
    ensures { result ≡ above_of bound strict }
{
    let point = bound.enclosed();
    (point.hi(), strict && is_point(point))
}

// Whether both ends are the same number.
fn is_point(interval: Interval) -> bool
    ensures { result ≡ is_point interval }
{
    is_at_most(interval.hi(), interval.lo())
}

fn is_at_most(a: End, b: End) -> bool
    ensures { result ≡ le_bound (bound_of a) (bound_of b) }
{
    a.is_at_most(b)
}
