//! Evaluation of a script at a point.

ghost use Rattle.std.specs.Prelude.{◌≡◌, All, Err, IfOk, codes, map};
ghost use Rattle.std.specs.List.{AllByRecursion};
ghost use Rattle.script_cases.specs.Cases.{cases};
ghost use Rattle.script_claims.specs.Facts.{HasNormalBounds};
ghost use Rattle.script_meets.specs.Meets.{Meets};
ghost use Rattle.rewrite_hints.specs.Marks.{AreMarks};
ghost use Rattle.point_values.specs.Rows.{assignment_of};
ghost use Rattle.point_values.specs.Evaluation.{IsTooWide, IsNarrow, evaluation_of};
ghost use Rattle.point_eval.specs.Points.{AreRowsOf};
ghost use Rattle.point_eval.specs.Judged.{judged_of, EndsIn};

use crate::laws::meeting_is_told;
use crate::point::Point;
use facts::HintMark;
use point_values::{EvalStop, Judged, Place};
use script_claims::Claim;
use script_grammar::Script;
use std::alloc::{AllocError, Global};

// The cases of the script's hypotheses, each with the claims that it takes.
#[tactic(auto, using(crate::proofs::Listed::listed_none, crate::proofs::Listed::listed_more))]
fn listed_cases(alloc: Global, script: &Script<'_>) -> Result<Vec<Vec<Claim>>, AllocError>
    ensures value { IfOk result (λ listed.
        map (λ case. case.items) listed.items ≡ cases script.now.parts) }
    ensures normal { IfOk result (λ listed.
        AllByRecursion (All HasNormalBounds) (map (λ case. case.items) listed.items)) }
{
    let mut listed = Vec::new(alloc);
    for number in 0..script.case_count() {
        let case = script.case(alloc, number)?;
        listed.push(case)?;
    }
    Ok(listed)
}

// The evaluation, from the cases.
#[tactic(auto, using(crate::proofs::Lasting::within, crate::proofs::Lasting::cases_among))]
fn evaluate_cases(
    alloc: Global,
    script: &Script<'_>,
    listed: &[Vec<Claim>],
    marks: &[HintMark],
    point: &Point,
) -> Result<Vec<u8>, EvalStop>
    requires cases { map (λ case. case.items) listed.now ≡ cases script.now.parts }
    requires normal { AllByRecursion (All HasNormalBounds) (map (λ case. case.items) listed.now) }
    requires marks { AreMarks script.now.nodes script.now.hints.rewrites marks.now }
    requires rows { AreRowsOf script.now.variables point.now.rows }
    ensures text { IfOk result (λ text. text.items
        ≡ evaluation_of (judged_of script.now marks.now) (assignment_of point.now.rows)) }
    ensures narrow { IfOk result (λ text.
        IsNarrow (judged_of script.now marks.now) point.now.rows) }
    ensures wide { (p : Place) → result ≡ Err (EvalStop.TooWide p)
        → IsTooWide (judged_of script.now marks.now) point.now.rows p }
{
    script.laws();
    let judged = Judged {
        dag: script.nodes(),
        hypotheses: script.hypotheses(),
        cases: listed,
        goals: script.goals(),
        hints: script.hints().rewrites.as_slice(),
        marks,
    };
    point_values::evaluate(alloc, &judged, point.rows.as_slice())
}

/// What the script's claims and assumed hints are at the point, as lines; or the first place with
/// a number that is too wide.
pub fn evaluate(
    alloc: Global,
    script: &Script<'_>,
    marks: &[HintMark],
    point: &Point,
) -> Result<Vec<u8>, EvalStop>
    requires marks { AreMarks script.now.nodes script.now.hints.rewrites marks.now }
    requires rows { AreRowsOf script.now.variables point.now.rows }
    ensures text { IfOk result (λ text. text.items
        ≡ evaluation_of (judged_of script.now marks.now) (assignment_of point.now.rows)) }
    // The last line says whether the assignment meets the script.
    ensures met { IfOk result (λ text. Meets (assignment_of point.now.rows) script.now
        → EndsIn text.items (codes "point: meets\n")) }
    ensures missed { IfOk result (λ text. ¬ Meets (assignment_of point.now.rows) script.now
        → EndsIn text.items (codes "point: misses\n")) }
    // It is too wide exactly where a number isn't below 2^127.
    ensures narrow { IfOk result (λ text.
        IsNarrow (judged_of script.now marks.now) point.now.rows) }
    ensures wide { (p : Place) → result ≡ Err (EvalStop.TooWide p)
        → IsTooWide (judged_of script.now marks.now) point.now.rows p }
{
    meeting_is_told();
    let listed = listed_cases(alloc, script)?;
    evaluate_cases(alloc, script, listed.as_slice(), marks, point)
}
