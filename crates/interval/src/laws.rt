// What holds of all intervals, for callers to cite. Nothing here is done at run time.
ghost use Rattle.fx_model.specs.Enclosure.{Range, IsNegation, IsSize, IsSquare, IsSum};
ghost use Rattle.fx_model.specs.Enclosure.{IsDifference, IsProduct, IsQuotient};
ghost use Rattle.interval.specs.Pairs.{IsHull};
ghost use Rattle.interval.specs.Unique.{IsOnly};

/// Nothing is done. The clauses tell a caller that each operation has one result.
pub fn one_result()
    ensures negation { (r : Range) → IsOnly (IsNegation r) }
    ensures size { (r : Range) → IsOnly (IsSize r) }
    ensures square { (r : Range) → IsOnly (IsSquare r) }
    ensures sum { (r s : Range) → IsOnly (IsSum r s) }
    ensures difference { (r s : Range) → IsOnly (IsDifference r s) }
    ensures product { (r s : Range) → IsOnly (IsProduct r s) }
    ensures quotient { (r s : Range) → IsOnly (IsQuotient r s) }
    ensures hull { (r s : Range) → IsOnly (IsHull r s) }
{}
