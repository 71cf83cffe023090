//! What holds of all lists of nodes, for callers to cite. Nothing here is done at run time.

ghost use Rattle.expr_dag.specs.Extended.{ValuesStay};

/// Nothing is done. The clause tells a caller that nodes keep their values where more nodes follow.
pub fn values_stay()
    ensures { ValuesStay }
{}
