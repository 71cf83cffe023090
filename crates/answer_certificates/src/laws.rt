//! What holds of the certificates of scripts, for callers to cite. Nothing here is done at run
//! time.
ghost use Rattle.box_tree.specs.Regions.{PlanParts};
ghost use Rattle.answer_certificates.specs.Laws.{UniversesAreWritten, InstancesAreFew};
ghost use Rattle.answer_certificates.specs.Laws.{SubjectsAreOfUniverses, TreesAreProved};
ghost use Rattle.answer_certificates.specs.Laws.{PiecesAreOfCuts, ScriptsHaveRoots};
ghost use Rattle.answer_certificates.specs.Laws.{AnswersHaveCertificates, AnswersAreSpelled};
ghost use Rattle.answer_certificates.specs.Premises.{PremisesAreFew};
ghost use Rattle.answer_certificates.specs.Universes.{UniversesAreSmall};

use bisect::{boxes_are_listed, one_answer};
use box_tree::few_cuts_end;
use derivation::best_tables_exist;
use saturate::rules_are_lawful;
use script_truths::universes_extend;
use tree_certificates::{certificates_exist, rules_fit_steps};
use universe::universes_are_one;

/// Nothing is done. The clauses tell a caller that what derivations over a script's universe
/// conclude can be written as steps, that there are at most 2^22 instances, and that in each case
/// steps are judged against the script's subject.
pub fn subjects_are_written()
    ensures universes { UniversesAreWritten }
    ensures few { InstancesAreFew }
    ensures subjects { SubjectsAreOfUniverses }
{
    rules_are_lawful();
    rules_fit_steps();
}

/// Nothing is done. The clause tells a caller that each piece of a box that is cut is of the cut's
/// variable.
pub fn pieces_are_of_cuts()
    ensures { (plan : PlanParts) → PiecesAreOfCuts plan }
{}

/// Nothing is done. The clauses tell a caller that where no leaf of a case's tree of boxes is
/// open, each is settled by its best table or void, and the checker's pieces leave of each box its
/// pieces; so that each case of a script that is proved has a root that has a certificate, and
/// their leaves show the script's lines.
pub fn scripts_have_roots()
    ensures trees { TreesAreProved }
    ensures roots { ScriptsHaveRoots }
{
    subjects_are_written();
    rules_are_lawful();
    best_tables_exist();
    universes_are_one();
    boxes_are_listed();
    one_answer();
    few_cuts_end();
}

/// For readers alone; nothing is done. The clauses say that for each script that is proved there is
/// a certificate over all its cases which the checker accepts for it with its lines, and bytes that
/// spell it. They say so whether or not memory is found to write it.
pub fn answers_have_certificates()
    ensures certificates { AnswersHaveCertificates }
    ensures bytes { AnswersAreSpelled }
{
    scripts_have_roots();
    subjects_are_written();
    certificates_exist();
}

// Nothing is done. The clause says how many premises instances have together beyond four each:
// those of hints alone have more.
fn premises_are_few()
    ensures { PremisesAreFew }
{}

/// Nothing is done. The clause tells a caller that the universe of a script has no more premises
/// than one text can ask for.
pub fn universes_are_small()
    ensures { UniversesAreSmall }
{
    premises_are_few();
    universes_extend();
}
