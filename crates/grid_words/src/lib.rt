//! Words of the grid that are functions: the roundings of every fraction, and the best intervals
//! of the operations.
#![tactic(auto)]

ghost use Rattle.fx_model.specs.Fraction.{Fraction, zero_ℚ};
ghost use Rattle.fx_model.specs.Grid.{IsDown, IsUp};
ghost use Rattle.fx_model.specs.Enclosure.{Range, Lies, IsOrdered, IsSum, IsDifference, IsNegation};
ghost use Rattle.fx_model.specs.Enclosure.{IsSize, IsProduct, IsQuotient};
ghost use Rattle.grid_words.specs.Nearest.{down, up};
ghost use Rattle.grid_words.specs.Sums.{sum_range, difference_range, negation_range};
ghost use Rattle.grid_words.specs.Sizes.{size_range};
ghost use Rattle.grid_words.specs.Products.{product_range, quotient_range};

/// Nothing is done. The clauses tell a caller that every fraction has its roundings to the grid.
pub fn roundings()
    ensures down { (x : Fraction) → IsDown x (down x) }
    ensures up { (x : Fraction) → IsUp x (up x) }
{}

/// Nothing is done. The clauses tell a caller that the operations on intervals have best results.
pub fn ranges()
    ensures sum { (r s : Range) → IsOrdered r.low r.high → IsOrdered s.low s.high
        → IsSum r s (sum_range r s) }
    ensures difference { (r s : Range) → IsOrdered r.low r.high → IsOrdered s.low s.high
        → IsDifference r s (difference_range r s) }
    ensures negation { (r : Range) → IsOrdered r.low r.high → IsNegation r (negation_range r) }
    ensures size { (r : Range) → IsOrdered r.low r.high → IsSize r (size_range r) }
    ensures product { (r s : Range) → IsOrdered r.low r.high → IsOrdered s.low s.high
        → IsProduct r s (product_range r s) }
    ensures quotient { (r s : Range) → IsOrdered r.low r.high → IsOrdered s.low s.high
        → ¬ Lies s zero_ℚ → IsQuotient r s (quotient_range r s) }
{}

/// For readers alone; nothing is done. The clauses say that the best results make intervals.
pub fn ranges_are_ordered()
    ensures sum { (r s : Range) → IsOrdered r.low r.high → IsOrdered s.low s.high
        → IsOrdered (sum_range r s).low (sum_range r s).high }
    ensures difference { (r s : Range) → IsOrdered r.low r.high → IsOrdered s.low s.high
        → IsOrdered (difference_range r s).low (difference_range r s).high }
    ensures negation { (r : Range) → IsOrdered r.low r.high
        → IsOrdered (negation_range r).low (negation_range r).high }
    ensures size { (r : Range) → IsOrdered r.low r.high
        → IsOrdered (size_range r).low (size_range r).high }
    ensures product { (r s : Range) → IsOrdered r.low r.high → IsOrdered s.low s.high
        → IsOrdered (product_range r s).low (product_range r s).high }
    ensures quotient { (r s : Range) → IsOrdered r.low r.high → IsOrdered s.low s.high
        → ¬ Lies s zero_ℚ → IsOrdered (quotient_range r s).low (quotient_range r s).high }
{}
