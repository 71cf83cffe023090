//! Evaluation of claims and hints over a list of nodes.

ghost use Rattle.std.specs.Prelude.{◌≡◌, ◌++◌, length, Err, IfOk, OnOk, None, Some};
ghost use Rattle.std.specs.List.{AllByRecursion};
ghost use Rattle.point_values.specs.Known.{values_of};
ghost use Rattle.point_values.specs.Rows.{IsRow, assignment_of};
ghost use Rattle.point_values.specs.Text as spec;
ghost use Rattle.point_values.specs.Evaluation.{lines_with, wide_with, evaluation_of};
ghost use Rattle.point_values.specs.Evaluation.{CanEvaluate, IsNarrow, IsTooWide};
ghost use Rattle.point_values.specs.Judged.{cases_in, subject_in};
ghost use Rattle.point_values.specs.Within.{AreWithin};

use crate::cases::some_case_is_met;
use crate::entries::entry_values;
use crate::lines::{put_goals, put_hints, put_hypotheses};
use crate::nodes::node_values;
use crate::place::{EvalStop, Place};
use exact_fractions::Exact;
use expr_dag::Dag;
use facts::HintMark;
use fx_model::Literal;
use literal_order::Written;
use script_claims::Claim;
use script_hints::hint::Hint;
use std::alloc::{AllocError, Global};

// Appends the last line: whether the point meets what is assumed. `Err` only where memory runs out.
fn put_point_line(out: &mut Vec<u8>, meets: bool) -> Result<(), AllocError>
    ensures added { OnOk result (out.new.items ≡ out.old.items ++ spec.point_line meets) }
{
    if meets {
        out.extend_from_slice("point: meets\n".as_bytes())
    } else {
        out.extend_from_slice("point: misses\n".as_bytes())
    }
}

/// What is judged at a point: claims and hints over nodes, with a mark for each hint. Each case has
/// some of the hypotheses, which are assumed together.
#[derive(Clone, Copy)]
pub struct Judged<'a> {
    /// The nodes.
    pub dag: &'a Dag,
    /// The hypotheses.
    pub hypotheses: &'a [Claim],
    /// Their cases.
    pub cases: &'a [Vec<Claim>],
    /// The goals.
    pub goals: &'a [Claim],
    /// The hints.
    pub hints: &'a [Hint],
    /// The marks of the hints.
    pub marks: &'a [HintMark],
}

// The lines, from the values of the nodes; or the first place with a number that is too wide.
fn lines_of(
    alloc: Global,
    values: &[Option<Exact>],
    judged: &Judged<'_>,
) -> Result<Vec<u8>, EvalStop>
    requires can_evaluate { CanEvaluate judged.now.hypotheses.now (cases_in judged.now)
        judged.now.goals.now judged.now.hints.now judged.now.marks.now }
    ensures lines { let s = subject_in judged.now in IfOk result (λ text. text.items
        ≡ lines_with (values_of values.now) s.hypotheses s.cases s.goals s.hints) }
    ensures narrow { let s = subject_in judged.now in IfOk result (λ text.
        wide_with (values_of values.now) s.hypotheses s.goals s.hints ≡ None) }
    ensures wide { let s = subject_in judged.now in (p : Place)
        → result ≡ Err (EvalStop.TooWide p)
        → wide_with (values_of values.now) s.hypotheses s.goals s.hints ≡ Some p }
{
    let mut out = Vec::new(alloc);
    put_hypotheses(&mut out, values, judged.hypotheses)?;
    let claims_hold = some_case_is_met(values, judged.cases);
    put_goals(&mut out, values, judged.goals)?;
    let hints_hold = put_hints(&mut out, values, judged.hints, judged.marks)?;
    put_point_line(&mut out, claims_hold && hints_hold)?;
    Ok(out)
}

/// What claims and assumed hints over nodes are at the point of these rows, as lines; or the first
/// place with a number that is too wide.
pub fn evaluate(
    alloc: Global,
    judged: &Judged<'_>,
    rows: &[(Written, Option<Literal>)],
) -> Result<Vec<u8>, EvalStop>
    requires can_evaluate { CanEvaluate judged.now.hypotheses.now (cases_in judged.now)
        judged.now.goals.now judged.now.hints.now judged.now.marks.now }
    requires rows { AllByRecursion IsRow rows.now }
    requires within { AreWithin (length judged.now.dag.now) judged.now.hypotheses.now
        judged.now.goals.now judged.now.hints.now }
    ensures text { IfOk result (λ text. text.items
        ≡ evaluation_of (subject_in judged.now) (assignment_of rows.now)) }
    // It is too wide exactly where a number isn't below 2^127.
    ensures narrow { IfOk result (λ text. IsNarrow (subject_in judged.now) rows.now) }
    ensures wide { (p : Place) → result ≡ Err (EvalStop.TooWide p)
        → IsTooWide (subject_in judged.now) rows.now p }
{
    let entries = entry_values(alloc, rows)?;
    let values = node_values(alloc, judged.dag, &entries)?;
    lines_of(alloc, &values, judged)
}
