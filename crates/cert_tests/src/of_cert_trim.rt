//! Certificates with unused steps, for two subjects.
ghost use Rattle.std.specs.Prelude.{◌≡◌, ◌<◌, IfOk, length};
ghost use Rattle.std.specs.List.{AllByRecursion};
ghost use Rattle.cert_bytes.specs.Certificates.{HasSpelling};

use crate::equals::bytes_are;
use cert_bytes::{Item, Reader, write_item};
use cert_checker::{Subject, accepted_items};
use cert_trim::trim;
use dyadic::{Dyadic, End};
use expr_dag::Dag;
use facts::{Fact, Slot};
use fx_edge::{Items, SureFolder};
use fx_model::{ExprId, Node};
use goals::{Goal, Want};
use interval::Interval;
use std::alloc::{AllocError, Global};
use std::process::Abort;
use std::test::Fail;

const X: ExprId = ExprId(0);

const Y: ExprId = ExprId(1);

// The head of a certificate with three nodes, x, y and x * y, and no marks.
const HEAD: [u8; 20] = [
    0x46, 0x58, 0x50, 0x43, 1, 0, 3, 0, 0, 0, 0, 0, 1, 5, 0, 0, 0, 1, 0, 0,
];

// Steps: x in [1, 2] and y in [3, 5], which are hypotheses.
const XS: [u8; 32] = [
    1, 0x64, 0, 0, 1, 0, 0, 0, 0, 0, 0, 0, 0, 0, 0, 1, 0, 0, 0, 0, 0, 0, 0, 0, 0, 0, 1, 0, 1, 0, 0,
    0,
];

const YS: [u8; 32] = [
    1, 0x64, 0, 1, 1, 0, 1, 0, 0, 0, 0, 0, 0, 0, 0, 3, 0, 0, 0, 0, 0, 0, 0, 0, 0, 0, 5, 0, 0, 0, 0,
    0,
];

// That x * y lies in [3, 10], by rule 6; what it is met with and its premises follow.
const PRODUCT: [u8; 29] = [
    1, 6, 0, 0, 1, 0, 2, 0, 0, 0, 0, 0, 0, 0, 0, 3, 0, 0, 0, 0, 0, 0, 0, 0, 0, 0, 5, 0, 1,
];

// The head of a certificate with the node x alone, and no marks.
const ALONE: [u8; 12] = [0x46, 0x58, 0x50, 0x43, 1, 0, 1, 0, 0, 0, 0, 0];

// A step: x in [3, 4], the second hypothesis.
const LATER: [u8; 32] = [
    1, 0x64, 0, 1, 1, 0, 0, 0, 0, 0, 0, 0, 0, 0, 0, 3, 0, 0, 0, 0, 0, 0, 0, 0, 0, 0, 1, 0, 2, 0, 0,
    0,
];

fn joined(alloc: Global, pieces: &[&[u8]]) -> Result<Vec<u8>, AllocError> {
    let mut bytes = Vec::new(alloc);
    for piece in pieces {
        bytes.extend_from_slice(piece)?;
    }
    Ok(bytes)
}

fn product(alloc: Global, with: Option<u8>, x: u8, y: u8) -> Result<Vec<u8>, AllocError> {
    let mut bytes = PRODUCT.to_vec(alloc)?;
    match with {
        Some(step) => bytes.extend_from_slice(&[1, 0, 0, 0, 0, 0, 0, 0, step])?,
        None => bytes.push(0)?,
    }
    bytes.extend_from_slice(&[0, 2, 0, 0, 0, 0, 0, 0, 0, x, 0, 0, 0, 0, 0, 0, 0, y])?;
    Ok(bytes)
}

fn leaf(step: u8) -> [u8; 11] {
    [3, 0, 1, 0, 0, 0, 0, 0, 0, 0, step]
}

fn dead(step: u8) -> [u8; 9] {
    [4, 0, 0, 0, 0, 0, 0, 0, step]
}

// That no assignment is left: the second hypothesis, met with a step.
fn void(step: u8) -> [u8; 16] {
    [1, 0x64, 0, 1, 6, 1, 0, 0, 0, 0, 0, 0, 0, step, 0, 0]
}

// The range of these whole numbers.
fn whole(rt: &impl Abort, of: ExprId, low: i64, high: i64) -> Fact {
    let low = Dyadic::new(low, 0).expect(rt, "a whole number");
    let high = Dyadic::new(high, 0).expect(rt, "a whole number");
    let range = Interval::new(End::At(low), End::At(high)).expect(rt, "ends in order");
    Fact::Bnd(of, range)
}

// The nodes x, y and x * y, or x alone.
fn nodes(rt: &impl Abort, alloc: Global, all: bool) -> Dag {
    let mut dag = Dag::new(alloc);
    let x = dag.add(Node::Var(0)).expect(rt, "a further node");
    if all {
        let y = dag.add(Node::Var(1)).expect(rt, "a further node");
        if dag.know_both(x, y) {
            let _ = dag.add(Node::Mul(x, y)).expect(rt, "a further node");
        }
    }
    dag
}

// A subject of so many cases with two hypotheses, where bounds of an expression are asked for.
fn subject(
    alloc: Global,
    nodes: Dag,
    count: usize,
    first: Fact,
    second: Fact,
    of: ExprId,
) -> Result<Subject, AllocError>
    ensures goals { IfOk result (λ s. length s.goals ≡ 1) }
    ensures marks { IfOk result (λ s. length s.marks ≡ 0) }
{
    let mut cases = Vec::new(alloc);
    for _ in 0..count {
        cases.push(Items::from_vec([first, second].to_vec(alloc)?))?;
    }
    let goal = Goal {
        of: Slot::Bnd(of),
        want: Want::Ask,
    };
    Ok(Subject {
        nodes,
        variables: 2,
        cases: Items::from_vec(cases),
        goals: Items::from_vec([goal].to_vec(alloc)?),
        marks: Items::from_vec(Vec::new(alloc)),
        hints: Items::from_vec(Vec::new(alloc)),
    })
}

fn written(alloc: Global, items: &[Item]) -> Result<Vec<u8>, AllocError>
    requires { AllByRecursion HasSpelling items.now }
{
    let mut items = items;
    let mut bytes = Vec::new(alloc);
    while let [item, later @ ..] = items {
        write_item(item, &mut bytes)?;
        items = later;
    }
    Ok(bytes)
}

// How many steps are left, of how many, and the bytes of what is left. None where the certificate
// isn't accepted.
fn trimmed(
    alloc: Global,
    subject: Subject,
    bytes: Vec<u8>,
) -> Result<Option<(u64, u64, Vec<u8>)>, AllocError>
    requires goals { length subject.goals < 65535 }
    requires marks { length subject.marks < 65535 }
{
    let mut files = Vec::new(alloc);
    files.push((String::from_str(alloc, "c")?, bytes))?;
    let mut folder = SureFolder::new(alloc, files, 0)?;
    let mut reader = Reader::new(alloc, "c")?;
    let Ok(accepted) = accepted_items(alloc, subject, &mut reader, &mut folder) else {
        return Ok(None);
    };
    let left = trim(alloc, accepted.items)?;
    let bytes = written(alloc, left.items.as_slice())?;
    Ok(Some((left.kept, left.all, bytes)))
}

// So many steps of so many are left, in these bytes; or nothing is.
fn is_left(
    rt: &impl Abort,
    found: &Option<(u64, u64, Vec<u8>)>,
    wanted: Option<(u64, u64, &[u8])>,
) {
    let (Some((kept, all, left)), Some((few, many, bytes))) = (found, wanted) else {
        assert!(rt; found.is_none() && wanted.is_none());
        return;
    };
    assert_eq!(rt; (*kept, *all), (few, many));
    bytes_are(rt, 0, left.as_slice(), bytes);
}

// The certificate is accepted, and so many steps of so many are left, in these bytes; or it isn't.
fn is_trimmed(
    rt: &impl Abort,
    alloc: Global,
    subject: Subject,
    bytes: Vec<u8>,
    wanted: Option<(u64, u64, &[u8])>,
) -> Result<(), Fail>
    requires goals { length subject.goals < 65535 }
    requires marks { length subject.marks < 65535 }
{
    let found = trimmed(alloc, subject, bytes)?;
    is_left(rt, &found, wanted);
    Ok(())
}

// The same for the product of x in [1, 2] and y in [3, 5], of these steps and a leaf.
fn product_is(
    rt: &(impl Abort + AllocGlobal),
    steps: &[&[u8]],
    last: u8,
    wanted: Option<(u64, u64, &[u8])>,
) -> Result<(), Fail> {
    let alloc = rt.alloc();
    let bytes = with_leaf(alloc, steps, last)?;
    let (first, second) = (whole(rt, X, 1, 2), whole(rt, Y, 3, 5));
    let asked = subject(alloc, nodes(rt, alloc, true), 1, first, second, ExprId(2))?;
    is_trimmed(rt, alloc, asked, bytes, wanted)
}

// The head, these steps, and a leaf.
fn with_leaf(alloc: Global, steps: &[&[u8]], last: u8) -> Result<Vec<u8>, AllocError> {
    let mut bytes = HEAD.to_vec(alloc)?;
    for step in steps {
        bytes.extend_from_slice(step)?;
    }
    bytes.extend_from_slice(&leaf(last))?;
    Ok(bytes)
}

#[test]
fn steps_that_are_used_stay(rt: HostRuntime) -> Result<(), Fail> {
    let alloc = rt.alloc();
    let by_both = product(alloc, None, 0, 1)?;
    let same = joined(alloc, &[&HEAD, &XS, &YS, by_both.as_slice(), &leaf(2)])?;
    let wanted = Some((3, 3, same.as_slice()));
    product_is(&rt, &[&XS, &YS, by_both.as_slice()], 2, wanted)
}

#[test]
fn steps_that_are_not_used_go(rt: HostRuntime) -> Result<(), Fail> {
    let alloc = rt.alloc();
    let by_first = product(alloc, None, 0, 1)?;
    let by_second = product(alloc, None, 0, 2)?;
    let whole = joined(alloc, &[&HEAD, &XS, &YS, by_first.as_slice(), &leaf(2)])?;
    // The second copy isn't cited; the first isn't; and a step that isn't used cites one.
    let wanted = Some((3, 4, whole.as_slice()));
    product_is(&rt, &[&XS, &YS, &YS, by_first.as_slice()], 3, wanted)?;
    product_is(&rt, &[&XS, &YS, &YS, by_second.as_slice()], 3, wanted)?;
    let steps = [&XS, &YS, &YS, by_second.as_slice(), by_first.as_slice()];
    product_is(&rt, &steps, 4, Some((3, 5, whole.as_slice())))
}

#[test]
fn what_a_step_is_met_with_stays(rt: HostRuntime) -> Result<(), Fail> {
    let alloc = rt.alloc();
    let plain = product(alloc, None, 0, 2)?;
    let met = product(alloc, Some(3), 0, 2)?;
    let moved = product(alloc, None, 0, 1)?;
    let met_moved = product(alloc, Some(2), 0, 1)?;
    let moved_steps = [&XS, &YS, moved.as_slice(), met_moved.as_slice()];
    let left = with_leaf(alloc, &moved_steps, 3)?;
    let steps = [&XS, &XS, &YS, plain.as_slice(), met.as_slice()];
    product_is(&rt, &steps, 4, Some((4, 5, left.as_slice())))
}

#[test]
fn a_dead_end_names_the_new_number(rt: HostRuntime) -> Result<(), Fail> {
    let alloc = rt.alloc();
    // The step that goes is the first item of the root section.
    let bytes = joined(alloc, &[&ALONE, &LATER, &XS, &void(1), &dead(2)])?;
    let left = joined(alloc, &[&ALONE, &XS, &void(0), &dead(1)])?;
    alone_is(&rt, 1, bytes, Some((2, 3, left.as_slice())))
}

// The same for so many cases of x in [1, 2] and in [3, 4].
fn alone_is(
    rt: &(impl Abort + AllocGlobal),
    count: usize,
    bytes: Vec<u8>,
    wanted: Option<(u64, u64, &[u8])>,
) -> Result<(), Fail> {
    let alloc = rt.alloc();
    let (first, second) = (whole(rt, X, 1, 2), whole(rt, X, 3, 4));
    let asked = subject(alloc, nodes(rt, alloc, false), count, first, second, X)?;
    is_trimmed(rt, alloc, asked, bytes, wanted)
}

#[test]
fn each_case_keeps_its_root_section(rt: HostRuntime) -> Result<(), Fail> {
    let alloc = rt.alloc();
    let head = joined(alloc, &[&ALONE, &[5, 2]])?;
    let roots: [&[u8]; 6] = [&LATER, &XS, &leaf(1), &XS, &LATER, &leaf(3)];
    let bytes = joined(alloc, &[head.as_slice(), joined(alloc, &roots)?.as_slice()])?;
    let left = joined(alloc, &[head.as_slice(), &XS, &leaf(0), &LATER, &leaf(1)])?;
    alone_is(&rt, 2, bytes, Some((2, 4, left.as_slice())))
}

#[test]
fn a_certificate_that_is_not_accepted_is_not_trimmed(rt: HostRuntime) -> Result<(), Fail> {
    let by_later = product(rt.alloc(), None, 0, 3)?;
    product_is(&rt, &[&XS, &YS, by_later.as_slice()], 2, None)
}
