//! Eight jobs by two workers: what no clause can tell of a run.
ghost use Rattle.std.specs.Prelude.{◌≡◌};

use crate::equals::{all_equal, equal};
use fx_edge::{Gate, Path};
use job_workers::{Job, run_jobs};
use std::alloc::AllocError;
use std::sync::atomic::{AtomicU64, Ordering};
use std::test::Fail;
use std::thread;

// What the gate and the jobs note: how many jobs have entered, which ones (a bit each), whether the
// first that entered met all others there, and how many jobs ran before they had entered.
#[derive(Drop)]
struct Notes {
    entered: AtomicU64,
    which: AtomicU64,
    met: AtomicU64,
    early: AtomicU64,
}

impl Gate for Notes {
    // The first that enters waits there until all have entered.
    fn enter(&self, path: &Path) {
        for n in path.numbers() {
            self.which.fetch_add(1 << (*n & 63), Ordering::SeqCst);
        }
        if self.entered.fetch_add(1, Ordering::SeqCst) > 0 {
            return;
        }
        for _ in 0..1_000_000u64 {
            if self.entered.load(Ordering::SeqCst) >= 8 {
                self.met.store(1, Ordering::SeqCst);
                return;
            }
            thread::yield_now();
        }
    }

    fn leave(&self, _path: &Path) {}
}

// A job gives its number.
#[derive(Drop)]
struct Jobs<'a> {
    notes: &'a Notes,
}

impl Job for Jobs<'_> {
    type Out = u16;

    ghost is_result = { λ jobs n out. out ≡ n };

    fn size(&self, number: u16) -> usize {
        number as usize
    }

    fn run(&self, number: u16) -> Result<u16, AllocError> {
        let which = self.notes.which.load(Ordering::SeqCst);
        if which & (1 << (number & 63)) == 0 {
            self.notes.early.fetch_add(1, Ordering::SeqCst);
        }
        Ok(number)
    }
}

#[test]
fn a_worker_takes_jobs_of_another_lane(rt: HostRuntime) -> Result<(), Fail> {
    let notes = Notes {
        entered: AtomicU64::new(0),
        which: AtomicU64::new(0),
        met: AtomicU64::new(0),
        early: AtomicU64::new(0),
    };
    let jobs = Jobs { notes: &notes };
    let results = run_jobs(&rt, rt.alloc(), &jobs, &notes, 8, 2)?;
    all_equal(
        &rt,
        "as_slice",
        results.as_slice(),
        [0u16, 1, 2, 3, 4, 5, 6, 7].as_slice(),
    );
    equal(&rt, "which", notes.which.load(Ordering::SeqCst), 255);
    equal(&rt, "met", notes.met.load(Ordering::SeqCst), 1);
    equal(&rt, "early", notes.early.load(Ordering::SeqCst), 0);
    Ok(())
}
