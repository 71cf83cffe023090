// Two workers share the boxes of a script: what no clause can tell of a run.
use crate::equals::{bytes_are, equal};
use crate::runs::words_of;
use command_runs::Status;
use fx_edge::{Gate, Path, SureFolder, SureSink};
use fx_top::fx_run;
use std::sync::atomic::{AtomicU64, Ordering};
use std::test::Fail;

// 15 boxes
const HALVED: &str = "{ x in [0,1] -> x * (1 - x) in [0,0.3] } x * (1 - x) $ x;";

// Those that aren't halved.
const LEAVES: [&[u8]; 8] = [
    &[0, 0],
    &[0, 1, 0],
    &[0, 1, 1, 0],
    &[0, 1, 1, 1],
    &[1, 0, 0, 0],
    &[1, 0, 0, 1],
    &[1, 0, 1],
    &[1, 1],
];

// The first leaf that enters waits there until all boxes have entered, and tells whether they did.
#[derive(Drop)]
struct HoldsALeaf {
    entered: AtomicU64,
    leaves: AtomicU64,
    met: AtomicU64,
}

impl Gate for HoldsALeaf {
    fn enter(&self, path: &Path) {
        self.entered.fetch_add(1, Ordering::SeqCst);
        let is_leaf = LEAVES.iter().any(|leaf| *leaf == path.numbers());
        if !is_leaf || self.leaves.fetch_add(1, Ordering::SeqCst) > 0 {
            return;
        }
        for _ in 0..100_000_000u64 {
            if self.entered.load(Ordering::SeqCst) >= 15 {
                self.met.store(1, Ordering::SeqCst);
                return;
            }
        }
    }

    fn leave(&self, _path: &Path) {}
}

#[test]
fn two_workers_share_boxes(rt: HostRuntime) -> Result<(), Fail> {
    let alloc = rt.alloc();
    let mut files = Vec::new(alloc);
    files.push((
        String::from_str(alloc, "a")?,
        HALVED.as_bytes().to_vec(alloc)?,
    ))?;
    let mut folder = SureFolder::new(alloc, files, 4096)?;
    let mut out = SureSink::new(alloc, 4096)?;
    let gate = HoldsALeaf {
        entered: AtomicU64::new(0),
        leaves: AtomicU64::new(0),
        met: AtomicU64::new(0),
    };
    let words = words_of(alloc, &["prove", "a", "--workers", "2"])?;
    let ended = fx_run(&rt, alloc, &words, &mut folder, &mut out, &gate);
    equal(&rt, "the status", 0, ended, Status::Answered);
    let line = b"x * ( 1 - x ) in [0, 9b-5]\n".as_slice();
    bytes_are(&rt, "the line", 0, out.bytes(), line);
    equal(&rt, "entered", 0, gate.entered.load(Ordering::SeqCst), 15);
    equal(&rt, "met", 0, gate.met.load(Ordering::SeqCst), 1);
    Ok(())
}
