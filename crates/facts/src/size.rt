ghost use Rattle.std.specs.Prelude.{◌↔◌, ◌≡◌, IsNone, IfSome};
ghost use Rattle.interval.specs.Intervals.{range_of};
ghost use Rattle.facts.specs.Ranges.{IsFromZero, IsFromZero-prop};

use interval::Interval;

/// An interval of absolute values: its lower end is at least 0.
#[derive(Clone, Copy, PartialEq, Eq, Debug)]
pub struct Size {
    interval: Interval,
    pub ghost from_zero: { IsFromZero
        (range_of interval) } by { IsFromZero-prop (range_of interval) },
}

impl Size {
    ghost use Rattle.facts.specs.Parts.{size_from, size_within};

    /// The interval as one of absolute values. None exactly where its lower end is below 0.
    #[inline(always)]
    pub fn new(interval: Interval) -> Option<Size>
        ensures refused { IsNone result ↔ (¬ IsFromZero (range_of interval)) }
        ensures made { IfSome result (λ size. size.interval ≡ interval) }
        ensures is { result ≡ size_from interval }
    {
        if interval.lo().is_from_zero() {
            Some(Size { interval })
        } else {
            None
        }
    }

    /// What of the interval is at least 0. None exactly where the interval lies below 0.
    #[inline(always)]
    pub fn within(interval: Interval) -> Option<Size>
        ensures { result ≡ size_within interval }
    {
        match interval.meet(Interval::not_negative()) {
            Some(part) => Size::new(part),
            None => None,
        }
    }

    /// The interval.
    #[inline(always)]
    pub fn interval(self) -> Interval
        ensures { result ≡ self.interval }
    {
        self.interval
    }
}
