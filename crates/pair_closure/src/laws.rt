//! What holds of all closures, for callers to cite. Nothing here is done at run time.

ghost use Rattle.pair_closure.specs.Closure.{ClosuresAreOne};

/// Nothing is done. The clause tells a caller that the nodes of a script and the pairs to begin
/// with have one closure.
pub fn closures_are_one()
    ensures { ClosuresAreOne }
{}
