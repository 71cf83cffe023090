//! When an assignment of fractions meets a script.
#![tactic(auto)]

ghost use Rattle.script_meets.specs.Meets.{HintsAreMet, NeedsGiveEqualSides, MeetsSomeCase};

use poly_normal::equal_forms_have_equal_values;
use script_hints::laws::rounded_needs_are_enough;

/// Nothing is done. The clauses tell a caller that an assignment that meets a script meets each
/// rewriting of it, those that are checked too; and so gives equal values to the sides of each
/// whose rounded needs are met. It meets the hypotheses exactly where all claims of some case are
/// true of it.
pub fn met_scripts()
    ensures hints { HintsAreMet }
    ensures sides { NeedsGiveEqualSides }
    ensures cases { MeetsSomeCase }
{
    equal_forms_have_equal_values();
    rounded_needs_are_enough();
}
