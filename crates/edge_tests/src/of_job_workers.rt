//! Jobs that answer at once, by several workers.
ghost use Rattle.std.specs.Prelude.{◌≡◌, ◌≤◌, ◌+◌};

use crate::equals::equal;
use fx_edge::{Gate, OpenGate, Path};
use job_workers::{Job, run_jobs};
use std::alloc::{AllocError, Global};
use std::sync::Wait;
use std::sync::atomic::{AtomicU64, Ordering};
use std::test::Fail;
use std::thread;
use std::thread::Threads;

// No call is refused.
const NONE: u64 = 1000;

// Adds 1000 to a job's number. It counts its calls, of which one is refused. The sizes are 0, 1, 2,
// 0, 1, 2 and so on.
#[derive(Drop)]
struct Adds {
    calls: AtomicU64,
    refused: u64,
}

fn adding(refused: u64) -> Adds {
    Adds {
        calls: AtomicU64::new(0),
        refused,
    }
}

impl Job for Adds {
    ghost use Rattle.std.specs.Prelude.{◌≡◌, ◌+◌};

    type Out = u64;

    ghost is_result = { λ job n out. out ≡ n + 1000 };

    fn size(&self, number: u16) -> usize {
        usize::from(number % 3)
    }

    fn run(&self, number: u16) -> Result<u64, AllocError> {
        let before = self.calls.fetch_add(1, Ordering::SeqCst);
        if before == self.refused {
            return Err(AllocError);
        }
        Ok(u64::from(number) + 1000)
    }
}

// Whether the results are those of the numbers from 0 on, so many; and how often a job was done.
fn answer<G: Gate, R: Threads + Wait + Sync>(
    rt: &R,
    alloc: Global,
    gate: &G,
    refused: u64,
    count: u16,
    workers: u8,
) -> Result<(bool, u64), AllocError>
    requires count { (1 ≤ count) × (count ≤ 64) }
    requires workers { (1 ≤ workers) × (workers ≤ 16) }
{
    let job = adding(refused);
    let outs = run_jobs(rt, alloc, &job, gate, count, workers)?;
    let mut wanted = Vec::new(alloc);
    for number in 0..count {
        wanted.push(u64::from(number) + 1000)?;
    }
    let same = outs.as_slice() == wanted.as_slice();
    Ok((same, job.calls.load(Ordering::SeqCst)))
}

#[test]
fn each_job_is_done_once(rt: HostRuntime) -> Result<(), Fail> {
    let mut seed: u64 = 1;
    for _ in 0..60 {
        seed = seed
            .wrapping_mul(6364136223846793005)
            .wrapping_add(1442695040888963407);
        let count = 1 + ((seed >> 40) % 64) as u16;
        let workers = 1 + ((seed >> 50) % 16) as u8;
        let found = answer(&rt, rt.alloc(), &OpenGate, NONE, count, workers)?;
        assert_eq!(rt;
            found,
            (true, u64::from(count)),
            "{count} jobs, {workers} workers"
        );
    }
    Ok(())
}

#[test]
fn a_refused_job_is_done_again(rt: HostRuntime) -> Result<(), Fail> {
    for refused in 0..20u64 {
        let found = answer(&rt, rt.alloc(), &OpenGate, refused, 20, 3)?;
        assert_eq!(rt; found, (true, 21), "call {refused}");
    }
    Ok(())
}

// The numbers of the jobs in the order in which they enter, as decimal digits.
#[derive(Drop)]
struct KeepsTheOrder {
    digits: AtomicU64,
}

impl Gate for KeepsTheOrder {
    fn enter(&self, path: &Path) {
        if let [piece] = path.numbers() {
            let before = self.digits.load(Ordering::SeqCst);
            let after = before.wrapping_mul(10).wrapping_add(u64::from(*piece));
            self.digits.store(after, Ordering::SeqCst);
        }
    }

    fn leave(&self, _path: &Path) {}
}

#[test]
fn the_longest_is_begun_first(rt: HostRuntime) -> Result<(), Fail> {
    let gate = KeepsTheOrder {
        digits: AtomicU64::new(0),
    };
    let found = answer(&rt, rt.alloc(), &gate, NONE, 7, 1)?;
    equal(&rt, "all jobs", found, (true, 7));
    equal(
        &rt,
        "the order",
        gate.digits.load(Ordering::SeqCst),
        2514036,
    );
    Ok(())
}

// The first job that enters waits there until another has entered, and tells whether one did. A job
// has one bit in `seen`, by the piece of its path.
#[derive(Drop)]
struct HoldsTheFirst {
    entered: AtomicU64,
    left: AtomicU64,
    seen: AtomicU64,
    met: AtomicU64,
}

fn bit_of(path: &Path) -> u64 {
    match path.numbers() {
        [piece] => 1 << (*piece % 64),
        _ => 0,
    }
}

impl Gate for HoldsTheFirst {
    fn enter(&self, path: &Path) {
        self.seen.fetch_add(bit_of(path), Ordering::SeqCst);
        if self.entered.fetch_add(1, Ordering::SeqCst) > 0 {
            return;
        }
        for _ in 0..1_000_000u64 {
            if self.entered.load(Ordering::SeqCst) > 1 {
                self.met.store(1, Ordering::SeqCst);
                return;
            }
            thread::yield_now();
        }
    }

    fn leave(&self, _path: &Path) {
        self.left.fetch_add(1, Ordering::SeqCst);
    }
}

#[test]
fn two_jobs_are_done_at_once(rt: HostRuntime) -> Result<(), Fail> {
    let gate = HoldsTheFirst {
        entered: AtomicU64::new(0),
        left: AtomicU64::new(0),
        seen: AtomicU64::new(0),
        met: AtomicU64::new(0),
    };
    let found = answer(&rt, rt.alloc(), &gate, NONE, 8, 4)?;
    equal(&rt, "all jobs", found, (true, 8));
    equal(&rt, "entered", gate.entered.load(Ordering::SeqCst), 8);
    equal(&rt, "left", gate.left.load(Ordering::SeqCst), 8);
    equal(&rt, "seen", gate.seen.load(Ordering::SeqCst), 255);
    equal(&rt, "met", gate.met.load(Ordering::SeqCst), 1);
    Ok(())
}
