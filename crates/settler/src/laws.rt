// What holds of the answers of scripts, for callers to cite. Nothing here is done at run time.
ghost use Rattle.std.specs.Prelude.{ℕ, List};
ghost use Rattle.script_claims.specs.declared.claim.Claim.{Claim};
ghost use Rattle.script_grammar.specs.Spells.{View};
ghost use Rattle.universe.specs.Universes.{IsUniverse};
ghost use Rattle.settler.specs.Frames.{Fits};
ghost use Rattle.settler.specs.Answers.{Options, plan_of, OutcomesAreOne, AnswersAreOne};
ghost use Rattle.settler.specs.Tight.{ProvedLinesAreTight};
ghost use Rattle.settler.specs.Open.{OpenLeavesAreFirst};
ghost use Rattle.settler.specs.One.{OneCaseIsAll, ProvedInOneCase};
ghost use Rattle.settler.specs.Cases.{LawfulCasesHold};
ghost use Rattle.settler.specs.Held.{CasesHold, ProvedHolds};

use box_tree::pieces_are_of_hypotheses;
use case_trees::{cases_answer_once, cases_are_told, lines_cover_cases};
use derivation::boxes_come_to_one_state;
use goals::settling_facts;
use rule_universe::Universe;
use script_truths::{goals_are_true, some_case_is_met, what_is_given_is_true};
use universe::universes_are_one;

/// Nothing is done. The clause tells a caller that the plan of a case cuts along expressions of the
/// script's universe in which its claims are assumed.
pub fn plans_fit(universe: &Universe)
    ensures { (s : View) (claims : List Claim) (depth : ℕ)
        → IsUniverse s claims universe.now → Fits universe.now (plan_of s claims depth) }
{
    universe.laws();
    pieces_are_of_hypotheses();
}

/// Nothing is done. The clauses tell a caller that a script comes to one outcome with its options,
/// so that it has one answer.
pub fn answers_are_one()
    ensures outcomes { OutcomesAreOne }
    ensures answers { AnswersAreOne }
{
    universes_are_one();
    boxes_come_to_one_state();
    cases_answer_once();
}

/// Nothing is done. The clause tells a caller that the lines of a proved script are the hulls of
/// its goals' best known facts over the leaves of the trees of all its cases.
pub fn proved_lines_are_tight()
    ensures { ProvedLinesAreTight }
{}

/// Nothing is done. The clause tells a caller that the open leaf that is named of an unproved
/// script is the first of its case's tree, and that no leaf of an earlier case is open.
pub fn open_leaves_are_first()
    ensures { OpenLeavesAreFirst }
{
    cases_are_told();
    universes_are_one();
    boxes_come_to_one_state();
    cases_answer_once();
}

/// For readers alone; nothing is done. The clauses say that a script of one case comes to what the
/// tree of that case comes to.
pub fn one_case_is_all()
    ensures comes { OneCaseIsAll }
    ensures proved { ProvedInOneCase }
{
    cases_answer_once();
}

// Nothing is done. The clause tells a caller that in a case with its plan, where no leaf is open,
// some leaf is settled with facts that hold of an assignment that meets the script and of which the
// case's claims are true.
pub(crate) fn cases_hold()
    ensures { LawfulCasesHold }
{
    universes_are_one();
    what_is_given_is_true();
}

/// Nothing is done. The clause tells a caller that where a script is proved of which each case
/// holds, each goal's line holds of every assignment that meets the script, and each goal is true,
/// with bounds exactly as they are written.
pub fn proved_answers_hold()
    ensures { (s : View) (o : Options) → CasesHold s o → ProvedHolds s o }
{
    some_case_is_met();
    goals_are_true();
    settling_facts();
    cases_are_told();
    lines_cover_cases();
}
