// What written bounds promise, for callers to cite. Nothing here is done at run time.
ghost use Rattle.std.specs.Prelude.{◌≡◌, ◌↔◌, true, false, Some};
ghost use Rattle.fx_model.specs.Fraction.{Fraction, ◌≤ℚ◌, ◌<ℚ◌};
ghost use Rattle.fx_model.specs.Grid.{IsOnGrid};
ghost use Rattle.fx_model.specs.Enclosure.{Range, IsOrdered, Lies, IsEnclosure, Within};
ghost use Rattle.dyadic.specs.Ends.{bound_of};
ghost use Rattle.interval.specs.declared.interval.Interval.{Interval as View};
ghost use Rattle.interval.specs.Intervals.{range_of};
ghost use Rattle.literal_order.specs.Values.{written_value};
ghost use Rattle.literal_order.specs.declared.written.Written.{Written};
ghost use Rattle.facts.specs.Rows.{IsUnder, IsOver};
ghost use Rattle.script_bounds.specs.Bounds.{outward_of, inward_of};
ghost use Rattle.script_bounds.specs.Sides.{UnderIsEnough, OverIsEnough};
ghost use Rattle.script_bounds.specs.Needs.{below_of, above_of};

/// Nothing is done. The clause tells a caller that bounds in order have an interval, the least that
/// holds each number between them.
pub fn outward_is_least()
    ensures { (r : Range) → IsOrdered r.low r.high
        → (i : View) × (outward_of r ≡ Some i) × IsEnclosure (Lies r) (range_of i) }
{}

/// Nothing is done. The clauses tell a caller that an interval lies between the bounds exactly
/// where it lies in the one rounded inward.
pub fn inward_is_greatest()
    ensures within { (r : Range) (i : View) → inward_of r ≡ Some i → (x : Fraction)
        → Lies (range_of i) x → Lies r x }
    ensures greatest { (r : Range) (k : View) → ((x : Fraction) → Lies (range_of k) x → Lies r x)
        → (i : View) × (inward_of r ≡ Some i) × Within (range_of k) (range_of i) }
{}

/// For readers alone; nothing is done. The clauses say that a number of the grid is at most the
/// end, or below it, exactly where it is so to the written bound.
pub fn needs_are_exact()
    ensures below { (w : Written) (g : Fraction) → IsOnGrid g
        → IsUnder (bound_of (below_of w true).0) (below_of w true).1 g ↔ (g <ℚ written_value w) }
    ensures not_above { (w : Written) (g : Fraction) → IsOnGrid g
        → IsUnder (bound_of (below_of w false).0) (below_of w false).1 g ↔ (g ≤ℚ written_value w) }
    ensures above { (w : Written) (g : Fraction) → IsOnGrid g
        → IsOver (bound_of (above_of w true).0) (above_of w true).1 g ↔ (written_value w <ℚ g) }
    ensures not_below { (w : Written) (g : Fraction) → IsOnGrid g
        → IsOver (bound_of (above_of w false).0) (above_of w false).1 g ↔ (written_value w ≤ℚ g) }
{}

/// Nothing is done. The clauses tell a caller that any number that is at most the end, or below it,
/// is so to the written bound.
pub fn needs_are_enough()
    ensures below { UnderIsEnough }
    ensures above { OverIsEnough }
{}
