//! A tree of 15 boxes, which is open on two ways down, by several workers.
ghost use Rattle.std.specs.Prelude.{◌≤◌};

use crate::answers::{Told, answer};
use crate::equals::equal;
use crate::tree::{NONE, is_front};
use fx_edge::{Gate, OpenGate, Path};
use std::alloc::Global;
use std::process::Abort;
use std::sync::Wait;
use std::sync::atomic::{AtomicU64, Ordering};
use std::test::Fail;
use std::thread::Threads;

// The first leaf that enters waits there until 15 boxes have entered, and tells whether they did.
#[derive(Drop)]
struct HoldsALeaf {
    entered: AtomicU64,
    leaves: AtomicU64,
    met: AtomicU64,
}

impl Gate for HoldsALeaf {
    fn enter(&self, path: &Path) {
        self.entered.fetch_add(1, Ordering::SeqCst);
        let numbers = path.numbers();
        if is_front(numbers, &[0, 1, 1]) || is_front(numbers, &[1, 0, 0]) {
            return;
        }
        if self.leaves.fetch_add(1, Ordering::SeqCst) > 0 {
            return;
        }
        for _ in 0..100_000_000u64 {
            if self.entered.load(Ordering::SeqCst) >= 15 {
                self.met.store(1, Ordering::SeqCst);
                return;
            }
        }
    }

    fn leave(&self, _path: &Path) {}
}

// The whole tree is told, for which the settler was called so often.
fn whole_is_told<G: Gate>(
    rt: &(impl Threads + Wait + Sync + Abort),
    alloc: Global,
    gate: &G,
    refused: u64,
    workers: u8,
    calls: u64,
) -> Result<(), Fail>
    requires { (1 ≤ workers) × (workers ≤ 16) }
{
    let (told, _, called) = answer(rt, alloc, gate, 16, refused, workers, 4096)?;
    equal(rt, u64::from(workers), told, (15, 8, None));
    equal(rt, refused, called, calls);
    Ok(())
}

// This is told where x is halved so often at most, of so many boxes at most.
fn is_told(
    rt: &(impl Threads + Wait + Sync + Abort),
    alloc: Global,
    depth: u8,
    workers: u8,
    boxes: u32,
    wanted: Told,
) -> Result<(), Fail>
    requires depth { depth ≤ 32 }
    requires workers { (1 ≤ workers) × (workers ≤ 16) }
    requires boxes { (1 ≤ boxes) × (boxes ≤ 8192) }
{
    let (told, _, _) = answer(rt, alloc, &OpenGate, depth, NONE, workers, boxes)?;
    equal(rt, u64::from(boxes), told, wanted);
    Ok(())
}

#[test]
fn one_answer_for_any_number_of_workers(rt: HostRuntime) -> Result<(), Fail> {
    whole_is_told(&rt, rt.alloc(), &OpenGate, NONE, 1, 15)?;
    whole_is_told(&rt, rt.alloc(), &OpenGate, NONE, 2, 15)?;
    whole_is_told(&rt, rt.alloc(), &OpenGate, NONE, 16, 15)?;
    // Exactly as many boxes as there may be, and one too many.
    is_told(&rt, rt.alloc(), 16, 4, 15, (15, 8, None))?;
    is_told(&rt, rt.alloc(), 16, 4, 14, (0, 0, None))?;
    // The first open leaf is that of the tree, whoever found it.
    let first = Path::root().child(0).child(1).child(1);
    is_told(&rt, rt.alloc(), 3, 3, 4096, (11, 0, Some(first)))
}

#[test]
fn a_refused_call_changes_no_leaf(rt: HostRuntime) -> Result<(), Fail> {
    for refused in 0..15u64 {
        whole_is_told(&rt, rt.alloc(), &OpenGate, refused, 4, 16)?;
    }
    Ok(())
}

#[test]
fn two_workers_share_boxes(rt: HostRuntime) -> Result<(), Fail> {
    let gate = HoldsALeaf {
        entered: AtomicU64::new(0),
        leaves: AtomicU64::new(0),
        met: AtomicU64::new(0),
    };
    whole_is_told(&rt, rt.alloc(), &gate, NONE, 2, 15)?;
    equal(&rt, 2, gate.entered.load(Ordering::SeqCst), 15);
    equal(&rt, 2, gate.met.load(Ordering::SeqCst), 1);
    Ok(())
}
