//! Runs, with what they print.
ghost use Rattle.std.specs.Prelude.{◌≤◌};

use crate::equals::{bytes_are, equal};
use crate::folders::folder_of;
use batch_command::run_batch;
use command_line::BatchRequest;
use command_runs::Status;
use fx_edge::{Gate, MemFolder, MemSink, OpenGate, Path};
use proof_options::Options;
use std::alloc::{AllocError, Global};
use std::process::Abort;
use std::sync::Wait;
use std::sync::atomic::{AtomicU64, Ordering};
use std::test::Fail;
use std::thread::Threads;

// The scripts under the names a and b.
const PRODUCT: &[u8] = b"{ x in [1,2] /\\ y in [3,5] -> x * y in ? }";

const FREE: &[u8] = b"{ x in ? }";

// A run of the list, by so many workers, who call the gate.
fn list_run<R: Threads + Wait + Sync, G: Gate>(
    rt: &R,
    alloc: Global,
    workers: u8,
    folder: &mut MemFolder,
    out: &mut MemSink,
    gate: &G,
) -> Status
    requires { (1 ≤ workers) × (workers ≤ 16) }
{
    let request = BatchRequest {
        list: "list",
        options: Options {
            rounds: 8,
            depth: 12,
            boxes: 256,
            workers,
        },
    };
    run_batch(rt, alloc, request, folder, out, gate)
}

// A run on a folder with this list and two scripts, whose calls of these numbers fail, has this
// status and these lines.
fn run_is(
    rt: &(impl Abort + Threads + Wait + Sync),
    alloc: Global,
    list: &[u8],
    failing: &[u64],
    workers: u8,
    status: Status,
    lines: &str,
) -> Result<(), Fail>
    requires { (1 ≤ workers) × (workers ≤ 16) }
{
    let files = [("list", list), ("a", PRODUCT), ("b", FREE)];
    let mut folder = folder_of(alloc, &files, failing, 100, 1000)?;
    let mut out = MemSink::new(alloc, Vec::new(alloc), 300, 5)?;
    let ended = list_run(rt, alloc, workers, &mut folder, &mut out, &OpenGate);
    equal(rt, lines, failing, ended, status);
    bytes_are(rt, lines, failing, out.bytes(), lines.as_bytes());
    Ok(())
}

// A list, with its status and lines.
const LISTS: &[(&[u8], Status, &str)] = &[
    (
        b"a\nb\n",
        Status::Unproved,
        "script a\nx * y in [3, 5b1]\nscript b\nunproved: goal 1 at the whole box\n",
    ),
    (b"a", Status::Answered, "script a\nx * y in [3, 5b1]\n"),
    (b"", Status::List, "list: EmptyName at 0\n"),
    (b"b\nc", Status::ReadFault, "read fault: c\n"),
];

#[test]
fn lists_have_their_answers(rt: HostRuntime) -> Result<(), Fail> {
    for (list, status, lines) in LISTS {
        run_is(&rt, rt.alloc(), *list, &[], 1, *status, lines)?;
        run_is(&rt, rt.alloc(), *list, &[], 4, *status, lines)?;
    }
    Ok(())
}

// A list and the number of the call that fails, with the status and the lines.
const FAULTS: &[(&[u8], u64, Status, &str)] = &[
    (b"a\nb\n", 2, Status::ReadFault, "read fault: list\n"),
    (b"a\nb\n", 6, Status::ReadFault, "read fault: b\n"),
];

#[test]
fn failed_reads_name_their_files(rt: HostRuntime) -> Result<(), Fail> {
    for (list, call, status, lines) in FAULTS {
        run_is(&rt, rt.alloc(), *list, &[*call], 2, *status, lines)?;
    }
    Ok(())
}

// The first job that enters waits there until another has entered, and notes whether one did.
#[derive(Drop)]
struct HoldsTheFirst {
    entered: AtomicU64,
    met: AtomicU64,
}

impl Gate for HoldsTheFirst {
    fn enter(&self, _path: &Path) {
        if self.entered.fetch_add(1, Ordering::SeqCst) > 0 {
            return;
        }
        for _ in 0..100_000_000u64 {
            if self.entered.load(Ordering::SeqCst) >= 2 {
                self.met.store(1, Ordering::SeqCst);
                return;
            }
        }
    }

    fn leave(&self, _path: &Path) {}
}

const EIGHT: &[u8] = b"a\na\na\na\na\na\na\na\n";

// How a run of eight scripts by four workers ends, who call the gate.
fn eight_run(
    rt: &(impl Threads + Wait + Sync),
    alloc: Global,
    gate: &HoldsTheFirst,
) -> Result<Status, AllocError> {
    let files = [("list", EIGHT), ("a", PRODUCT)];
    let mut folder = folder_of(alloc, &files, &[], 100, 1000)?;
    let mut out = MemSink::new(alloc, Vec::new(alloc), 300, 300)?;
    Ok(list_run(rt, alloc, 4, &mut folder, &mut out, gate))
}

#[test]
fn several_workers_prove_the_scripts(rt: HostRuntime) -> Result<(), Fail> {
    let gate = HoldsTheFirst {
        entered: AtomicU64::new(0),
        met: AtomicU64::new(0),
    };
    let ended = eight_run(&rt, rt.alloc(), &gate)?;
    equal(&rt, "eight scripts", &[], ended, Status::Answered);
    equal(&rt, "met", &[], gate.met.load(Ordering::SeqCst), 1);
    equal(&rt, "entered", &[], gate.entered.load(Ordering::SeqCst), 8);
    Ok(())
}
