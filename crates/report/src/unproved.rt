//! The line of a goal that isn't proved.

ghost use Rattle.std.specs.Prelude.{◌≡◌, ◌++◌, IfOk, OnOk};
ghost use Rattle.report.specs.Unproved as spec;

use crate::proved::put_interval;
use bisect::OpenLeaf;
use box_tree::Plan;
use fx_edge::Path;
use fx_model::{ExprId, Node};
use script_grammar::Script;
use std::alloc::{AllocError, Global};

// The name of a variable.
fn name_at<'a>(script: &Script<'a>, node: Option<Node>) -> &'a [u8]
    ensures { result.now ≡ spec.name_at script.now.variables node }
{
    match node {
        Some(Node::Var(number)) => match script.variable(number) {
            Some(name) => name,
            None => &[],
        },
        _ => &[],
    }
}

// Appends a variable with its range in the box.
fn put_range(
    line: &mut Vec<u8>,
    script: &Script<'_>,
    plan: &Plan,
    path: &Path,
    x: ExprId,
) -> Result<(), AllocError>
    ensures added { OnOk result
        (line.new.items ≡ line.old.items ++ spec.range_text script.now plan.now path.now x) }
{
    line.extend_from_slice(name_at(script, script.nodes().get(x)))?;
    line.extend_from_slice(" in ".as_bytes())?;
    put_interval(line, plan.range(path, x))
}

// Appends the variables with their ranges in the box.
fn put_box(
    line: &mut Vec<u8>,
    script: &Script<'_>,
    plan: &Plan,
    path: &Path,
    order: &[ExprId],
) -> Result<(), AllocError>
    ensures added { OnOk result
        (line.new.items ≡ line.old.items ++ spec.box_text script.now plan.now path.now order.now) }
{
    let [first, more @ ..] = order else {
        return line.extend_from_slice("the whole box".as_bytes());
    };
    put_range(line, script, plan, path, *first)?;
    let mut rest = more;
    while let [x, later @ ..] = rest {
        line.extend_from_slice(", ".as_bytes())?;
        put_range(line, script, plan, path, *x)?;
        rest = later;
    }
    Ok(())
}

// Appends which case it is of so many, where there are more than one.
fn put_case(alloc: Global, line: &mut Vec<u8>, cases: usize, case: u8) -> Result<(), AllocError>
    ensures added { OnOk result (line.new.items ≡ line.old.items ++ spec.case_text cases case) }
{
    if cases <= 1 {
        return Ok(());
    }
    let number = u32::from(case) + 1;
    let text = format!(in alloc; "case {number}, ")?;
    line.extend_from_slice(text.as_bytes())
}

/// The line of an open leaf, whose case is one of so many. The plan is that of the case. The line
/// has the ranges of the script's split variables in the leaf's box, in the order in which hints
/// first name them. `Err` only where memory runs out.
pub fn unproved_text(
    alloc: Global,
    script: &Script<'_>,
    plan: &Plan,
    cases: usize,
    leaf: &OpenLeaf,
) -> Result<Vec<u8>, AllocError>
    ensures { IfOk result (λ line. line.items
        ≡ spec.unproved_text script.now plan.now cases leaf.now.case leaf.now.path leaf.now.goal) }
{
    let number = u32::from(leaf.goal) + 1;
    let mut line = format!(in alloc; "unproved: goal {number} at ")?.into_bytes();
    put_case(alloc, &mut line, cases, leaf.case)?;
    put_box(
        &mut line,
        script,
        plan,
        &leaf.path,
        script.hints().order.as_slice(),
    )?;
    line.extend_from_slice("\n".as_bytes())?;
    Ok(line)
}
