//! Events that two workers make, and events that are refused.
ghost use Rattle.std.specs.Prelude.{length, nat_lt, if◌then◌else◌};

use crate::equals::{all_equal, answer_is, equal};
use crate::events::turns;
use accounts::EventRefused::NotEnabled;
use accounts::{Core, Cuts, Event, EventRefused};
use fx_edge::Path;
use std::process::Abort;
use std::test::Fail;

// Each box is halved, four times at most.
#[derive(Drop)]
struct Halves;

impl Cuts for Halves {
    ghost pieces_of = { λ _ path. if nat_lt (length path) 4 then 2 else 0 };

    fn pieces(&self, path: &Path) -> u8 {
        if path.len() < 4 { 2 } else { 0 }
    }
}

const LEAVES: &[&[u8]] = &[
    &[0, 0],
    &[1, 1],
    &[0, 1, 0],
    &[1, 0, 1],
    &[0, 1, 1, 0],
    &[1, 0, 0, 0],
    &[0, 1, 1, 1],
    &[1, 0, 0, 1],
];

fn are_paths(rt: &impl Abort, found: &[Path], wanted: &[&[u8]]) {
    equal(rt, 0, found.len(), 8);
    for (path, leaf) in found.iter().zip(wanted) {
        all_equal(rt, 0, path.numbers(), *leaf);
    }
}

#[test]
fn two_workers_settle_the_leaves(rt: HostRuntime) -> Result<(), Fail> {
    let plan = Halves;
    let mut core = Core::start(rt.alloc(), &plan, 2)?;
    turns(&mut core)?;
    are_paths(&rt, core.settled(), LEAVES);
    Ok(())
}

type Answer = Result<(), EventRefused>;

// The events in this order have these answers.
fn steps_are(rt: &impl Abort, core: &mut Core<'_, Halves>, rows: &[(Event, Answer)]) {
    for (event, answer) in rows {
        answer_is(rt, *event, core.step(*event), *answer);
    }
}

#[test]
fn events_in_turn(rt: HostRuntime) -> Result<(), Fail> {
    let plan = Halves;
    let mut core = Core::start(rt.alloc(), &plan, 2)?;
    let root = Path::root();
    let first = root.child(0);
    let second = root.child(1);
    let no = Err(NotEnabled);
    let rows = [
        (Event::Settle { worker: 0 }, no),
        // A worker pops its own lane, and there is no third worker.
        (Event::Steal { worker: 0, lane: 0 }, no),
        (Event::Steal { worker: 0, lane: 2 }, no),
        (Event::Pop { worker: 2 }, no),
        (Event::Pop { worker: 1 }, no),
        (Event::Steal { worker: 1, lane: 0 }, Ok(())),
        (Event::Steal { worker: 1, lane: 0 }, no),
        (
            Event::Push {
                worker: 1,
                path: first,
            },
            no,
        ),
        (
            Event::Publish {
                worker: 1,
                path: first,
            },
            no,
        ),
        (
            Event::Publish {
                worker: 1,
                path: root,
            },
            Ok(()),
        ),
        (
            Event::Publish {
                worker: 1,
                path: root,
            },
            no,
        ),
        (Event::Settle { worker: 1 }, no),
        (
            Event::Push {
                worker: 1,
                path: second,
            },
            no,
        ),
        (
            Event::Push {
                worker: 1,
                path: first,
            },
            Ok(()),
        ),
        (Event::Hold { worker: 1 }, Ok(())),
        (Event::Hold { worker: 1 }, no),
        (Event::Pop { worker: 1 }, Ok(())),
        (Event::Settle { worker: 1 }, Ok(())),
    ];
    steps_are(&rt, &mut core, &rows);
    all_equal(&rt, 0, core.settled(), &[first]);
    Ok(())
}
