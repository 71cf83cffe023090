//! The shared count of boxes that wait or are in a hand. It only saves work: no answer rests on it.
use crossbeam_utils::CachePadded;
use std::sync::Wait;
use std::sync::atomic::{AtomicU64, Ordering};
use std::time::Duration;
use std::{hint, thread};

// A worker that finds no box tries again so many times at once, and so many times after other
// threads could run. Then it sleeps between its turns.
const QUICK_TURNS: u64 = 32;

const YIELDING_TURNS: u64 = 64;

// The first sleep in microseconds. Each later one is twice as long, up to 256 times the first,
// which is about 4 milliseconds.
const FIRST_SLEEP: u64 = 16;

const DOUBLINGS: u64 = 8;

/// How many boxes wait or are in a hand.
#[derive(Drop)]
pub struct Counts {
    boxes: CachePadded<AtomicU64>,
}

impl Counts {
    /// It starts at 1, for the root.
    pub fn new() -> Counts {
        Counts {
            boxes: CachePadded::new(AtomicU64::new(1)),
        }
    }

    // A child is about to be pushed.
    pub(crate) fn join(&self) {
        self.boxes.fetch_add(1, Ordering::SeqCst);
    }

    // A box was settled, split or held. The last one wakes the workers that sleep.
    pub(crate) fn leave(&self) {
        if self.boxes.fetch_sub(1, Ordering::SeqCst) == 1 {
            self.boxes.wake_all();
        }
    }

    // No box waits or is in a hand.
    pub(crate) fn is_zero(&self) -> bool {
        self.boxes.load(Ordering::SeqCst) == 0
    }

    // Lets time pass, after so many turns in a row in which a worker found no box. No sleep is much
    // longer than the worker was idle before, and each ends by itself.
    pub(crate) fn rest<R: Wait>(&self, rt: &R, turns: u64) {
        if turns < QUICK_TURNS {
            hint::spin_loop();
            return;
        }
        if turns < YIELDING_TURNS {
            thread::yield_now();
            return;
        }
        let seen = self.boxes.load(Ordering::SeqCst);
        if seen == 0 {
            return;
        }
        let micros = FIRST_SLEEP << (turns - YIELDING_TURNS).min(DOUBLINGS);
        self.boxes.park_timeout(
            rt,
            (seen & 0xffff_ffff) as u32,
            Duration::from_micros(micros),
        );
    }
}
