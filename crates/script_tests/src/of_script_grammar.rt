//! Texts with their scripts or refusals, worked out by hand. More refusals stand in `script_judge`.
ghost use Rattle.std.specs.Prelude.{Some};
ghost use Rattle.literal_order.specs.Values.{IsWritten};

use crate::equals::{equal, holds};
use fx_model::{Direction, ExprId, Node, Rounding};
use literal::read;
use literal_order::Written;
use script_claims::Claim;
use script_grammar::{ParseStop, Script, parse};
use script_judge::{Refusal, RefusalKind};
use std::alloc::Global;
use std::process::Abort;
use std::test::Fail;

// How many nodes a script has, how many hypotheses and goals, and how many hints that rewrite,
// liken, cut and halve.
type Sizes = (u16, (usize, usize), (usize, usize), (usize, usize));

fn sizes(script: &Script<'_>) -> Sizes {
    let list = script.hints();
    let claims = (script.hypotheses().len(), script.goals().len());
    let pairs = (list.rewrites.as_slice().len(), list.likes.as_slice().len());
    let splits = (list.cuts.as_slice().len(), list.halves.as_slice().len());
    (script.nodes().len(), claims, pairs, splits)
}

// Whether the text spells a script of these sizes.
fn has_sizes(alloc: Global, text: &[u8], wanted: Sizes) -> bool {
    match parse(alloc, text) {
        Ok(script) => sizes(&script) == wanted,
        Err(_) => false,
    }
}

#[test]
fn formulas_have_their_parts(rt: HostRuntime) {
    const ROWS: &[(&[u8], Sizes)] = &[
        (
            b"{ x in [1,2] /\\ y in [3,5] -> x * y in ? }",
            (3, (2, 1), (0, 0), (0, 0)),
        ),
        (b"{ x in ? /\\ y in ? }", (2, (0, 2), (0, 0), (0, 0))),
        (
            b"{ x in [0,1] -> @FIX(x,-3) /\\ x >= 0 -> |x| <= 1 }",
            (2, (3, 1), (0, 0), (0, 0)),
        ),
        (b"{ 0.5 + 0.50 - 1b-1 in ? }", (4, (0, 1), (0, 0), (0, 0))),
    ];
    for (text, wanted) in ROWS {
        holds(&rt, *text, has_sizes(rt.alloc(), *text, *wanted));
    }
}

#[test]
fn definitions_have_their_parts(rt: HostRuntime) {
    const ROWS: &[(&[u8], Sizes)] = &[
        (
            b"@rnd = fixed<-4,dn>; y = rnd(x); { x in [0,1] -> y - x in ? }",
            (3, (1, 1), (0, 0), (0, 0)),
        ),
        (
            b"@q = fixed<-15,dn>; x = q(xx); y q= x * x; My = x * x; { xx in [0,1] -> y - My in ? }",
            (5, (1, 1), (0, 0), (0, 0)),
        ),
    ];
    for (text, wanted) in ROWS {
        holds(&rt, *text, has_sizes(rt.alloc(), *text, *wanted));
    }
}

#[test]
fn hints_have_their_parts(rt: HostRuntime) {
    const ROWS: &[(&[u8], Sizes)] = &[
        (
            b"{ x in [0,1] -> x * (1 - x) in [0,0.3] } x * (1 - x) $ x;",
            (4, (1, 1), (0, 0), (0, 1)),
        ),
        (
            b"{ x in [0,1] -> x in ? } $ x in 4; $ x in (0.25, 0.5); $ x;",
            (1, (1, 1), (0, 0), (3, 0)),
        ),
        (
            b"{ x in [0,1] -> y in ? } y -> x + 1 { x <> 0, x < 2 }; y ~ x;",
            (4, (1, 1), (1, 1), (0, 0)),
        ),
    ];
    for (text, wanted) in ROWS {
        holds(&rt, *text, has_sizes(rt.alloc(), *text, *wanted));
    }
}

// Whether the script has so many cases, of which the one with the number has these claims.
fn is_case(
    alloc: Global,
    script: &Script<'_>,
    count: usize,
    number: usize,
    wanted: &[Claim],
) -> Result<bool, Fail> {
    if script.case_count() != count || number >= script.case_count() {
        return Ok(false);
    }
    let case = script.case(alloc, number)?;
    Ok(case.as_slice() == wanted)
}

// Whether the text spells such a script.
fn has_case(
    alloc: Global,
    text: &[u8],
    count: usize,
    number: usize,
    wanted: &[Claim],
) -> Result<bool, Fail> {
    match parse(alloc, text) {
        Ok(script) => is_case(alloc, &script, count, number, wanted),
        Err(_) => Ok(false),
    }
}

fn case_is(
    rt: &(impl Abort + AllocGlobal),
    text: &[u8],
    count: usize,
    number: usize,
    wanted: &[Claim],
) -> Result<(), Fail> {
    holds(rt, text, has_case(rt.alloc(), text, count, number, wanted)?);
    Ok(())
}

// The bound that digits write.
fn bound(rt: &impl Abort, digits: &str) -> Written
    ensures { IsWritten (Some result) }
{
    Written {
        literal: read(digits).expect(rt, "a literal"),
        negative: false,
    }
}

#[test]
fn hypotheses_have_their_cases(rt: HostRuntime) -> Result<(), Fail> {
    let x = ExprId(0);
    let one = bound(&rt, "1");
    let two = bound(&rt, "2");
    let first = Claim::Bounded(x, Some(one), Some(two));
    let above = Claim::Above(ExprId(1), one);
    let below = Claim::Below(x, two);
    let none = b"{ x in ? }";
    case_is(&rt, none, 1, 0, &[])?;
    let conjunctions = b"{ x in [1,2] /\\ not y <= 1 \\/ not x >= 2 -> x in ? }";
    case_is(&rt, conjunctions, 2, 0, &[first, above])?;
    case_is(&rt, conjunctions, 2, 1, &[below])?;
    let parts =
        b"{ x in [1,2] \\/ not y <= 1 -> not x >= 2 -> not x >= 2 \\/ x in [1,2] -> x in ? }";
    case_is(&rt, parts, 4, 0, &[first, below, below])?;
    case_is(&rt, parts, 4, 1, &[first, below, first])?;
    case_is(&rt, parts, 4, 2, &[above, below, below])?;
    case_is(&rt, parts, 4, 3, &[above, below, first])
}

// Whether the node with the number is this one.
fn has_node(script: &Script<'_>, number: u16, node: Node) -> bool {
    script.nodes().get(ExprId(number)) == Some(node)
}

// Whether the first nodes of the script are these, and its first goal this.
fn has_nodes(script: &Script<'_>, nodes: [Node; 4], goal: Claim) -> bool {
    let [first, second, third, fourth] = nodes;
    has_node(script, 0, first)
        && has_node(script, 1, second)
        && has_node(script, 2, third)
        && has_node(script, 3, fourth)
        && script.goals().first() == Some(&goal)
}

// Whether the text spells such a script.
fn spells_nodes(alloc: Global, text: &[u8], nodes: [Node; 4], goal: Claim) -> bool {
    match parse(alloc, text) {
        Ok(script) => has_nodes(&script, nodes, goal),
        Err(_) => false,
    }
}

#[test]
fn operations_of_a_definition_are_rounded(rt: HostRuntime) {
    let text = b"@q = fixed<-15,dn>; x = q(xx); y q= x * x; { xx in [0,1] -> y in ? }";
    let rounding = Rounding {
        lsb: -15,
        dir: Direction::Dn,
    };
    let nodes = [
        Node::Var(0),
        Node::Round(rounding, ExprId(0)),
        Node::Mul(ExprId(1), ExprId(1)),
        Node::Round(rounding, ExprId(2)),
    ];
    let goal = Claim::Asked(ExprId(3));
    holds(&rt, text, spells_nodes(rt.alloc(), text, nodes, goal));
}

// The refusal of a text.
fn refusal(alloc: Global, text: &[u8]) -> Option<Refusal> {
    match parse(alloc, text) {
        Err(ParseStop::Refused(found)) => Some(found),
        _ => None,
    }
}

#[test]
fn other_texts_are_refused(rt: HostRuntime) {
    const ROWS: &[(&[u8], RefusalKind, u32)] = &[
        (b"{ x in [1,2", RefusalKind::Unexpected, 11),
        (b"{ x in [2,1] -> x in ? }", RefusalKind::BadBound, 10),
        (b"x = 1; x = 2; { x in ? }", RefusalKind::NameUsed, 7),
    ];
    for (text, kind, at) in ROWS {
        let wanted = Refusal {
            kind: *kind,
            at: *at,
        };
        equal(&rt, *text, refusal(rt.alloc(), *text), Some(wanted));
    }
}
