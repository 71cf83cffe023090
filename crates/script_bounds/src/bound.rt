// Written bounds, rounded outward and inward.
ghost use Rattle.std.specs.Prelude.{◌≡◌};
ghost use Rattle.literal_order.specs.Values.{IsWritten};
ghost use Rattle.script_bounds.specs.Bounds.{low_of, high_of, written_range, down_end, up_end};
ghost use Rattle.script_bounds.specs.Bounds.{outward_of, inward_of};

use dyadic::End;
use interval::Interval;
use literal_order::Written;

/// What a hypothesis says: the least interval that holds each number between the bounds. A bound
/// that isn't there leaves its side open. None exactly where the lower end would lie above the
/// upper.
pub fn outward(lower: Option<Written>, upper: Option<Written>) -> Option<Interval>
    requires lower { IsWritten lower }
    requires upper { IsWritten upper }
    ensures is { result ≡ outward_of (written_range lower upper) }
{
    Interval::new(down_of_low(lower), up_of_high(upper))
}

/// What a goal asks for: the greatest interval that holds numbers between the bounds alone. None
/// exactly where there is no such interval.
pub fn inward(lower: Option<Written>, upper: Option<Written>) -> Option<Interval>
    requires lower { IsWritten lower }
    requires upper { IsWritten upper }
    ensures is { result ≡ inward_of (written_range lower upper) }
{
    Interval::new(up_of_low(lower), down_of_high(upper))
}

fn down_of_low(lower: Option<Written>) -> End
    requires { IsWritten lower }
    ensures { result ≡ down_end (low_of lower) }
{
    match lower {
        Some(bound) => bound.enclosed().lo(),
        None => End::Low,
    }
}

fn up_of_low(lower: Option<Written>) -> End
    requires { IsWritten lower }
    ensures { result ≡ up_end (low_of lower) }
{
    match lower {
        Some(bound) => bound.enclosed().hi(),
        None => End::Low,
    }
}

fn up_of_high(upper: Option<Written>) -> End
    requires { IsWritten upper }
    ensures { result ≡ up_end (high_of upper) }
{
    match upper {
        Some(bound) => bound.enclosed().hi(),
        None => End::High,
    }
}

fn down_of_high(upper: Option<Written>) -> End
    requires { IsWritten upper }
    ensures { result ≡ down_end (high_of upper) }
{
    match upper {
        Some(bound) => bound.enclosed().lo(),
        None => End::High,
    }
}
