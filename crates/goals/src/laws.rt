// What holds of all goals and lines, for callers to cite. Nothing here is done at run time.
ghost use Rattle.goals.specs.Holds.{LineHoldsFirst, LineHoldsOn};
ghost use Rattle.goals.specs.Stronger.{AreOfGoals, StrongerSettles};

/// Nothing is done. The clauses tell a caller that a line with a goal's fact holds where the fact
/// does, and goes on to hold with further facts.
pub fn lines_hold()
    ensures first { LineHoldsFirst }
    ensures more { LineHoldsOn }
{}

/// Nothing is done. The clauses tell a caller that only bounds and relative errors settle a goal,
/// and that a stronger fact than one that does, other than VOID, settles it too.
pub fn settling_facts()
    ensures kind { AreOfGoals }
    ensures stronger { StrongerSettles }
{}
