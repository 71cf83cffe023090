//! The lines of an evaluation.

ghost use Rattle.std.specs.Prelude.{◌≡◌, ◌&&◌, ◌++◌, ◌+◌, ◌<◌, ◌^◌, length, All, Err, IfOk, OnOk};
ghost use Rattle.std.specs.Prelude.{None, Some, true, false, codes, [], if◌then◌else◌};
ghost use Rattle.std.specs.Fmt.{decimal};
ghost use Rattle.std.specs.List.{list_all};
ghost use Rattle.exact_fractions.specs.Wide.{are_narrow};
ghost use Rattle.script_claims.specs.Facts.{HasNormalBounds};
ghost use Rattle.script_hints.specs.Needs.{HasNormalBounds as HasNormalHintBounds};
ghost use Rattle.point_values.specs.Known.{values_of};
ghost use Rattle.point_values.specs.Numbers.{claim_numbers, marked_numbers, wide_from};
ghost use Rattle.point_values.specs.Truth as truth;
ghost use Rattle.point_values.specs.Shown.{shown_text};
ghost use Rattle.point_values.specs.Text as spec;
ghost use Rattle.point_values.specs.Text.{lines_from};
ghost use Rattle.point_values.specs.Evaluation.{pairs};
ghost use Rattle.point_values.specs.declared.place.Place.TheVariants as place;

use crate::claims::{Judged, judge};
use crate::hints::hint_holds;
use crate::place::{EvalStop, Place};
use crate::shown::put_shown;
use exact_fractions::Exact;
use facts::HintMark;
use script_claims::Claim;
use script_hints::hint::Hint;
use std::alloc::AllocError;

fn truth_text(holds: bool) -> &'static str
    ensures { result.now ≡ spec.truth_text holds }
{
    if holds { "holds" } else { "fails" }
}

// Appends a number, which counts from 1. `Err` only where memory runs out; a part of it may then be
// there.
fn put_number(out: &mut Vec<u8>, number: usize) -> Result<(), AllocError>
    requires { number < 2 ^ 63 }
    ensures added { OnOk result (out.new.items ≡ out.old.items
        ++ (decimal (number + 1) ++ codes ": ")) }
{
    let k = number + 1;
    let number = format!(in *out.allocator(); "{k}: ")?;
    out.extend_from_slice(number.as_bytes())
}

// Appends a title and a number, which counts from 1. `Err` only where memory runs out; a part of it
// may then be there.
fn put_title(out: &mut Vec<u8>, title: &str, number: usize) -> Result<(), AllocError>
    requires { number < 2 ^ 63 }
    ensures added { OnOk result (out.new.items ≡ out.old.items
        ++ (title.now ++ decimal (number + 1) ++ codes ": ")) }
{
    out.extend_from_slice(title.as_bytes())?;
    put_number(out, number)
}

// Appends a truth and the end of its line. `Err` only where memory runs out; a part of it may then
// be there.
fn put_truth(out: &mut Vec<u8>, holds: bool) -> Result<(), AllocError>
    ensures added { OnOk result (out.new.items ≡ out.old.items
        ++ (spec.truth_text holds ++ codes "\n")) }
{
    out.extend_from_slice(truth_text(holds).as_bytes())?;
    out.extend_from_slice("\n".as_bytes())
}

// Appends a title, a number from 1 and a truth. `Err` only where memory runs out; a part of it may
// then be there.
fn put_truth_line(
    out: &mut Vec<u8>,
    title: &str,
    number: usize,
    holds: bool,
) -> Result<(), AllocError>
    requires { number < 2 ^ 63 }
    ensures added { OnOk result (out.new.items ≡ out.old.items ++ (title.now
        ++ decimal (number + 1) ++ codes ": " ++ spec.truth_text holds ++ codes "\n")) }
{
    put_title(out, title, number)?;
    put_truth(out, holds)
}

// Whether the claim is a question.
fn is_asked(claim: Claim) -> bool
    ensures { result ≡ spec.is_asked claim }
{
    match claim {
        Claim::Asked(_) => true,
        Claim::RelativeAsked(_, _) => true,
        _ => false,
    }
}

// Appends the truth of a goal; a question has none. `Err` only where memory runs out; a part of it
// may then be there.
fn put_goal_truth(out: &mut Vec<u8>, asked: bool, holds: bool) -> Result<(), AllocError>
    ensures added { OnOk result (out.new.items ≡ out.old.items
        ++ (if asked then [] else codes ", " ++ spec.truth_text holds)) }
{
    if asked {
        return Ok(());
    }
    out.extend_from_slice(", ".as_bytes())?;
    out.extend_from_slice(truth_text(holds).as_bytes())
}

// Appends the line of a goal. `Err` only where memory runs out; a part of it may then be there.
fn put_goal_line(
    out: &mut Vec<u8>,
    number: usize,
    asked: bool,
    judged: Judged,
) -> Result<(), AllocError>
    requires { number < 2 ^ 63 }
    ensures added { OnOk result (out.new.items ≡ out.old.items
        ++ (codes "goal " ++ decimal (number + 1) ++ codes ": " ++ shown_text judged.shown
        ++ (if asked then [] else codes ", " ++ spec.truth_text judged.holds) ++ codes "\n")) }
{
    let k = number + 1;
    let title = format!(in *out.allocator(); "goal {k}: ")?;
    out.extend_from_slice(title.as_bytes())?;
    put_shown(out, judged.shown)?;
    put_goal_truth(out, asked, judged.holds)?;
    out.extend_from_slice("\n".as_bytes())
}

// Appends the line of a hypothesis, or says that a number of it is too wide.
#[tactic(auto, unfolding(crate::specs::Text::hypothesis_line))]
fn put_hypothesis(
    out: &mut Vec<u8>,
    values: &[Option<Exact>],
    number: usize,
    claim: Claim,
) -> Result<(), EvalStop>
    requires normal { HasNormalBounds claim }
    requires number { number < 2 ^ 63 }
    ensures line { IfOk result (λ _. out.new.items ≡ out.old.items
        ++ spec.hypothesis_line (values_of values.now) number claim) }
    ensures narrow { IfOk result (λ _. are_narrow (claim_numbers (values_of values.now) claim)
        ≡ true) }
    ensures wide { (p : Place) → result ≡ Err (EvalStop.TooWide p)
        → (are_narrow (claim_numbers (values_of values.now) claim) ≡ false)
        × (place.Hypothesis number ≡ p) }
{
    let Some(judged) = judge(values, claim) else {
        return Err(EvalStop::TooWide(Place::Hypothesis(number)));
    };
    put_truth_line(out, "hypothesis ", number, judged.holds)?;
    Ok(())
}

// Appends the line of a goal, or says that a number of it is too wide.
#[tactic(auto, unfolding(crate::specs::Text::goal_line))]
fn put_goal(
    out: &mut Vec<u8>,
    values: &[Option<Exact>],
    number: usize,
    claim: Claim,
) -> Result<(), EvalStop>
    requires normal { HasNormalBounds claim }
    requires number { number < 2 ^ 63 }
    ensures line { IfOk result (λ _. out.new.items ≡ out.old.items
        ++ spec.goal_line (values_of values.now)
        number claim) }
    ensures narrow { IfOk result (λ _. are_narrow (claim_numbers (values_of values.now) claim)
        ≡ true) }
    ensures wide { (p : Place) → result ≡ Err (EvalStop.TooWide p)
        → (are_narrow (claim_numbers (values_of values.now) claim) ≡ false)
        × (place.Goal number ≡ p) }
{
    let Some(judged) = judge(values, claim) else {
        return Err(EvalStop::TooWide(Place::Goal(number)));
    };
    put_goal_line(out, number, is_asked(claim), judged)?;
    Ok(())
}

// Appends the line of a hint, if it is assumed, and says whether it holds, or that a number of it
// is too wide.
#[tactic(auto, unfolding(crate::specs::Text::hint_line, crate::specs::Numbers::marked_numbers, crate::specs::Truth::marked_holds))]
fn put_hint(
    out: &mut Vec<u8>,
    values: &[Option<Exact>],
    number: usize,
    hint: &Hint,
    mark: HintMark,
) -> Result<bool, EvalStop>
    requires normal { HasNormalHintBounds hint.now }
    requires number { number < 2 ^ 63 }
    ensures line { IfOk result (λ hold. out.new.items ≡ out.old.items
        ++ spec.hint_line (values_of values.now) number (hint.now, mark)) }
    ensures holds { IfOk result (λ hold.
        hold ≡ truth.marked_holds (values_of values.now) (hint.now, mark)) }
    ensures narrow { IfOk result (λ hold.
        are_narrow (marked_numbers (values_of values.now) (hint.now, mark)) ≡ true) }
    ensures wide { (p : Place) → result ≡ Err (EvalStop.TooWide p)
        → (are_narrow (marked_numbers (values_of values.now) (hint.now, mark)) ≡ false)
        × (place.Hint number ≡ p) }
{
    match mark {
        HintMark::Checked => Ok(true),
        HintMark::Assumed => {
            let Some(holds) = hint_holds(values, hint) else {
                return Err(EvalStop::TooWide(Place::Hint(number)));
            };
            put_truth_line(out, "hint ", number, holds)?;
            Ok(holds)
        }
    }
}

/// Appends a line for each hypothesis; or the first of them with a number that is too wide.
pub fn put_hypotheses(
    out: &mut Vec<u8>,
    values: &[Option<Exact>],
    claims: &[Claim],
) -> Result<(), EvalStop>
    requires { All HasNormalBounds claims.now }
    ensures lines { IfOk result (λ _. out.new.items ≡ out.old.items
        ++ lines_from (spec.hypothesis_line (values_of values.now)) 0 claims.now) }
    ensures narrow { IfOk result
        (λ _. wide_from place.Hypothesis (claim_numbers (values_of values.now)) 0
        claims.now ≡ None) }
    ensures wide { (p : Place) → result ≡ Err (EvalStop.TooWide p)
        → wide_from place.Hypothesis (claim_numbers (values_of values.now)) 0 claims.now ≡ Some p }
{
    let mut number = 0;
    let mut rest = claims;
    while let [claim, later @ ..] = rest {
        put_hypothesis(out, values, number, *claim)?;
        number += 1;
        rest = later;
    }
    Ok(())
}

/// Appends a line for each goal; or the first of them with a number that is too wide.
pub fn put_goals(
    out: &mut Vec<u8>,
    values: &[Option<Exact>],
    claims: &[Claim],
) -> Result<(), EvalStop>
    requires { All HasNormalBounds claims.now }
    ensures lines { IfOk result (λ _. out.new.items ≡ out.old.items
        ++ lines_from (spec.goal_line (values_of values.now)) 0 claims.now) }
    ensures narrow { IfOk result (λ _. wide_from place.Goal (claim_numbers (values_of values.now)) 0
        claims.now
        ≡ None) }
    ensures wide { (p : Place) → result ≡ Err (EvalStop.TooWide p)
        → wide_from place.Goal (claim_numbers (values_of values.now)) 0 claims.now ≡ Some p }
{
    let mut number = 0;
    let mut rest = claims;
    while let [claim, later @ ..] = rest {
        put_goal(out, values, number, *claim)?;
        number += 1;
        rest = later;
    }
    Ok(())
}

// Whether both hold.
fn both(a: bool, b: bool) -> bool
    ensures { result ≡ (a && b) }
{
    a && b
}

/// Appends a line for each hint that is assumed, and says whether all these hold; or the first of
/// them with a number that is
/// too wide.
#[tactic(auto, using(crate::proofs::Hinted::along_start))]
pub fn put_hints(
    out: &mut Vec<u8>,
    values: &[Option<Exact>],
    hints: &[Hint],
    marks: &[HintMark],
) -> Result<bool, EvalStop>
    requires normal { All HasNormalHintBounds hints.now }
    requires marks { length marks.now ≡ length hints.now }
    ensures lines { IfOk result (λ hold. out.new.items ≡ out.old.items
        ++ lines_from (spec.hint_line (values_of values.now)) 0 (pairs hints.now marks.now)) }
    ensures holds { IfOk result (λ hold. hold ≡ list_all (truth.marked_holds (values_of values.now))
        (pairs hints.now marks.now)) }
    ensures narrow { IfOk result
        (λ hold. wide_from place.Hint (marked_numbers (values_of values.now)) 0
        (pairs hints.now marks.now) ≡ None) }
    ensures wide { (p : Place) → result ≡ Err (EvalStop.TooWide p)
        → wide_from place.Hint (marked_numbers (values_of values.now)) 0 (pairs hints.now marks.now)
        ≡ Some p }
{
    let mut hold = true;
    for number in 0..hints.len() {
        let holds = put_hint(out, values, number, &hints[number], marks[number])?;
        hold = both(hold, holds);
    }
    Ok(hold)
}
