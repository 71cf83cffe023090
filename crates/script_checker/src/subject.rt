//! What a script asks of its certificates.
ghost use Rattle.std.specs.Prelude.{IfOk};
ghost use Rattle.script_checker.specs.Subjects.{IsSubjectOf};

use crate::cases::facts_of_cases;
use cert_checker::Subject;
use fx_edge::Items;
use rewrite_hints::{marks_of, rows_of};
use script_claims::goals_of;
use script_grammar::Script;
use std::alloc::{AllocError, Global};

/// The subject of a script: its nodes, what its hypotheses say case by case, what its goals want,
/// and the marks and the rows of its rewritings.
pub fn subject_of(alloc: Global, script: &Script<'_>) -> Result<Subject, AllocError>
    ensures { IfOk result (IsSubjectOf script.now) }
{
    script.laws();
    let nodes = script.nodes().copy()?;
    let cases = facts_of_cases(alloc, script)?;
    let goals = goals_of(alloc, script.goals())?;
    let marks = marks_of(alloc, script.nodes(), script.hints().rewrites.as_slice())?;
    let hints = rows_of(alloc, script.nodes(), script.hints().rewrites.as_slice())?;
    Ok(Subject {
        nodes,
        variables: script.variable_count(),
        cases: Items::from_vec(cases),
        goals: Items::from_vec(goals),
        marks: Items::from_vec(marks),
        hints: Items::from_vec(hints),
    })
}
