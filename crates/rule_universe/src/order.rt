//! An order of instances: those of small expressions stand first, so that an instance stands behind
//! most of those that conclude its premises. Nothing but time rests on it.

ghost use Rattle.std.specs.Prelude.{◌≡◌, ◌⊎◌, ◌≤◌, ℕ, length, Contains, IfOk};
ghost use Rattle.rule_universe.specs.Ordered.{AreNumbersOf};

use expr_dag::Dag;
use facts::{Instance, Slot};
use fx_model::{ExprId, Node};
use std::alloc::{AllocError, Global};

// How many levels there are, VOID's included.
const LEVELS: usize = 1026;

// The greater one.
fn greater(a: u16, b: u16) -> u16 {
    if a < b { b } else { a }
}

// The level with this index, or 0.
fn level_at(levels: &[u16], i: usize) -> u16 {
    match levels.get(i) {
        Some(level) => *level,
        None => 0,
    }
}

// The level of this expression.
fn level_of(levels: &[u16], x: ExprId) -> u16 {
    level_at(levels, x.0 as usize)
}

// One more than the levels of its parts.
fn node_level(levels: &[u16], node: Node) -> u16 {
    let parts = match node {
        Node::Var(_) => 0,
        Node::Lit(_) => 0,
        Node::Neg(a) => level_of(levels, a),
        Node::Add(a, b) => greater(level_of(levels, a), level_of(levels, b)),
        Node::Sub(a, b) => greater(level_of(levels, a), level_of(levels, b)),
        Node::Mul(a, b) => greater(level_of(levels, a), level_of(levels, b)),
        Node::Div(a, b) => greater(level_of(levels, a), level_of(levels, b)),
        Node::Abs(a) => level_of(levels, a),
        Node::Round(_, a) => level_of(levels, a),
    };
    parts.saturating_add(1)
}

// The level of each expression.
fn node_levels(alloc: Global, nodes: &Dag) -> Result<Vec<u16>, AllocError> {
    let mut levels = Vec::new(alloc);
    for n in 0..nodes.len() {
        let level = node_level(&levels, nodes.node(ExprId(n)));
        levels.push(level)?;
    }
    Ok(levels)
}

// The level of what a slot is about. That of VOID is above all.
fn slot_level(levels: &[u16], s: Slot) -> u16 {
    match s {
        Slot::Bnd(x) => level_of(levels, x),
        Slot::Abs(x) => level_of(levels, x),
        Slot::Rel(x, y) => greater(level_of(levels, x), level_of(levels, y)),
        Slot::Fix(x) => level_of(levels, x),
        Slot::Nzr(x) => level_of(levels, x),
        Slot::Void => 1025,
    }
}

// The greatest level of these slots.
fn greatest_level(levels: &[u16], slots: &[Slot]) -> u16 {
    let mut most = 0;
    for s in slots {
        most = greater(most, slot_level(levels, *s));
    }
    most
}

// By instance, the level of its target.
fn target_levels(
    alloc: Global,
    levels: &[u16],
    instances: &[Instance],
) -> Result<Vec<u16>, AllocError> {
    let mut found = Vec::new(alloc);
    for instance in instances {
        found.push(slot_level(levels, instance.target))?;
    }
    Ok(found)
}

// By instance, the greatest level of its premises.
fn premise_levels(
    alloc: Global,
    levels: &[u16],
    instances: &[Instance],
) -> Result<Vec<u16>, AllocError> {
    let mut found = Vec::new(alloc);
    for instance in instances {
        found.push(greatest_level(levels, instance.premises.as_slice()))?;
    }
    Ok(found)
}

// The number at this index, or 0.
fn number_at(list: &[u32], i: usize) -> u32 {
    match list.get(i) {
        Some(n) => *n,
        None => 0,
    }
}

// Writes a number at this index, if there is such a place.
fn write_at(list: &mut Vec<u32>, i: usize, n: u32)
    ensures { (k : ℕ) → Contains list.new.items k → Contains list.old.items k ⊎ (k ≡ n) }
{
    if i < list.len() {
        list[i] = n;
    }
}

// By level, how many of these numbers have a lower one.
fn starts_of(alloc: Global, numbers: &[u32], levels: &[u16]) -> Result<Vec<u32>, AllocError> {
    let mut starts = vec![in alloc; 0u32; LEVELS]?;
    for k in numbers {
        let level = level_at(levels, *k as usize) as usize;
        let count = number_at(&starts, level);
        write_at(&mut starts, level, count.wrapping_add(1));
    }
    let mut before = 0u32;
    for level in 0..LEVELS {
        let count = number_at(&starts, level);
        write_at(&mut starts, level, before);
        before = before.wrapping_add(count);
    }
    Ok(starts)
}

// The numbers by their levels. Those of one level stay in their order.
fn by_level(
    alloc: Global,
    instances: &[Instance],
    numbers: &[u32],
    levels: &[u16],
) -> Result<Vec<u32>, AllocError>
    requires { AreNumbersOf instances.now numbers.now }
    ensures { IfOk result (λ sorted. AreNumbersOf instances.now sorted.items) }
{
    let mut starts = starts_of(alloc, numbers, levels)?;
    let mut sorted = Vec::from_slice(alloc, numbers)?;
    for k in numbers {
        let level = level_at(levels, *k as usize) as usize;
        let here = number_at(&starts, level);
        write_at(&mut sorted, here as usize, *k);
        write_at(&mut starts, level, here.wrapping_add(1));
    }
    Ok(sorted)
}

// The numbers of the instances, as they stand.
fn all_numbers(alloc: Global, instances: &[Instance]) -> Result<Vec<u32>, AllocError>
    ensures { IfOk result (λ numbers. AreNumbersOf instances.now numbers.items) }
{
    let mut numbers = Vec::new(alloc);
    if instances.len() > u32::MAX as usize {
        return Err(AllocError);
    }
    for k in 0..instances.len() {
        numbers.push(k as u32)?;
    }
    Ok(numbers)
}

/// The numbers of the instances by the level of the target, and by the greatest level of a premise
/// where that is the same.
pub fn in_order(alloc: Global, nodes: &Dag, instances: &[Instance]) -> Result<Vec<u32>, AllocError>
    ensures { IfOk result (λ order. AreNumbersOf instances.now order.items) }
{
    let levels = node_levels(alloc, nodes)?;
    let numbers = all_numbers(alloc, instances)?;
    let premises = premise_levels(alloc, &levels, instances)?;
    let sorted = by_level(alloc, instances, &numbers, &premises)?;
    let targets = target_levels(alloc, &levels, instances)?;
    by_level(alloc, instances, &sorted, &targets)
}
