//! What is known of a list's faults, for callers to cite. Nothing here is done at run time.
ghost use Rattle.name_list.specs.Lists.{FaultsAreOne};
ghost use Rattle.name_list.specs.Fronts.{FrontsDecide, FaultlessAreWhole};

/// Nothing is done. The clause tells a caller that a list has one first fault, or none.
pub fn list_faults_are_one()
    ensures { FaultsAreOne }
{}

/// Nothing is done. The clauses tell a caller that the first 65,540 bytes of a list have its fault,
/// or have none and are all of it.
pub fn fronts_decide()
    ensures fault { FrontsDecide }
    ensures whole { FaultlessAreWhole }
{}
