// Laws for callers to cite. Nothing here is done at run time.
ghost use Rattle.script_truths.specs.Kept.{OfExtended, ValuesAreKept, FactsAreKept, LinesAreKept};
ghost use Rattle.script_truths.specs.Kept.{ClaimsAreKept, RowsAreKept};
ghost use Rattle.script_truths.specs.Named.{FactsAreNamed, GoalsAreNamed, RowsAreNamed};
ghost use Rattle.script_truths.specs.Truths.{SomeCaseIsMet, TrueFactsHold, CheckedRowsAreTrue};
ghost use Rattle.script_truths.specs.Truths.{MetRowsAreTrue, UniversesExtend, OfUniverses};
ghost use Rattle.script_truths.specs.Truths.{WhereMet, HypothesesHold, HintsAreTrue};
ghost use Rattle.script_truths.specs.Truths.{LiesInWholeBox, SettledGoalsAreTrue, GoalLinesHold};

use box_tree::hypotheses_are_in_the_box;
use expr_dag::values_stay;
use poly_normal::equal_forms_have_equal_values;
use rewrite_hints::rows_are_true;
use script_claims::{goals_are_enough, hypotheses_hold};
use script_meets::met_scripts;

/// Nothing is done. The clauses tell a caller that nodes have their values where more nodes follow;
/// so facts and lines about them hold, claims and rows are true, over both lists or over neither.
pub fn nodes_keep_what_is_said()
    ensures values { OfExtended ValuesAreKept }
    ensures facts { OfExtended FactsAreKept }
    ensures lines { OfExtended LinesAreKept }
    ensures claims { OfExtended ClaimsAreKept }
    ensures rows { OfExtended RowsAreKept }
{
    values_stay();
}

/// Nothing is done. The clause tells a caller that of an assignment that meets a script all claims
/// of some case are true.
pub fn some_case_is_met()
    ensures { SomeCaseIsMet }
{}

/// Nothing is done. The clauses tell a caller that the row of a checked hint is true of every
/// assignment; that the facts of claims hold where these are true; and that all rows of a script
/// are true of each assignment that meets it, over the script's own nodes.
pub fn what_is_written_is_true()
    ensures facts { TrueFactsHold }
    ensures checked { CheckedRowsAreTrue }
    ensures met { MetRowsAreTrue }
{
    equal_forms_have_equal_values();
    rows_are_true();
    met_scripts();
    hypotheses_hold();
}

/// For readers alone; nothing is done. The clauses say that the facts of a script's hypotheses, its
/// goals and the rows of its hints are about its nodes.
pub fn what_is_written_names_nodes()
    ensures facts { FactsAreNamed }
    ensures goals { GoalsAreNamed }
    ensures rows { RowsAreNamed }
{}

/// Nothing is done. The clause tells a caller that the nodes of a universe are the script's, with
/// more behind them.
pub fn universes_extend()
    ensures { UniversesExtend }
{}

/// Nothing is done. The clauses tell a caller that what derivations over the universe of a script
/// begin with, in which some claims are assumed, is true of each assignment that meets the script
/// and of which these are true: hypotheses, rows of hints, the whole box.
pub fn what_is_given_is_true()
    ensures hypotheses { WhereMet HypothesesHold }
    ensures hints { WhereMet HintsAreTrue }
    ensures whole_box { WhereMet LiesInWholeBox }
{
    universes_extend();
    nodes_keep_what_is_said();
    what_is_written_is_true();
    hypotheses_hold();
    hypotheses_are_in_the_box();
}

/// Nothing is done. The clauses tell a caller that a goal is true, with bounds as they are written,
/// of each assignment of which a fact that settles it holds over the universe; and that its line
/// holds over the script where it holds over the universe.
pub fn goals_are_true()
    ensures settled { OfUniverses SettledGoalsAreTrue }
    ensures lines { OfUniverses GoalLinesHold }
{
    universes_extend();
    nodes_keep_what_is_said();
    goals_are_enough();
}
