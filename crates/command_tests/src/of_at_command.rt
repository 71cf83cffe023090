//! Runs, with what they print. The lines are those of an independent program.
use crate::equals::{bytes_are, equal};
use crate::folders::folder_of;
use at_command::run_at;
use command_line::AtRequest;
use command_runs::Status;
use fx_edge::MemSink;
use std::alloc::Global;
use std::process::Abort;
use std::test::Fail;

const NAMES: AtRequest<'static> = AtRequest {
    script: "s",
    point: "p",
};

// A script and a point, with their status and lines.
type Row = (&'static str, &'static str, Status, &'static str);

const ROWS: &[Row] = &[
    (
        "@rnd = fixed<-4,dn>; y = rnd(x); { x in [0,1] -> y - x in ? }",
        "x = 1 / 3;",
        Status::Answered,
        "hypothesis 1: holds\ngoal 1: -1/48\npoint: meets\n",
    ),
    (
        "{ x in [1,2] -> 1 / (x - x) in ? }",
        "x = 1;",
        Status::Answered,
        "hypothesis 1: holds\ngoal 1: no value\npoint: meets\n",
    ),
    (
        "{ x in ? }",
        "x = 1b200;",
        Status::TooWide,
        "too wide: entry 1\n",
    ),
    ("{ x in ? }", "", Status::Point, "point: Missing at 0\n"),
    (
        "{ x in ? }",
        "x = = 1;",
        Status::Point,
        "point: Unexpected at 4\n",
    ),
    (
        "{ x in }",
        "x = 1;",
        Status::Script,
        "script: Unexpected at 7\n",
    ),
];

// The script and the point end with this status and these lines over a folder, of which these calls
// fail, and a sink that move few bytes in a call.
fn point_ends(
    rt: &impl Abort,
    alloc: Global,
    script: &str,
    point: &str,
    failing: &[u64],
    status: Status,
    lines: &str,
) -> Result<(), Fail> {
    let files = [("s", script.as_bytes()), ("p", point.as_bytes())];
    let mut folder = folder_of(alloc, &files, failing, 100, 7)?;
    let mut out = MemSink::new(alloc, Vec::new(alloc), 300, 5)?;
    let ended = run_at(alloc, NAMES, &mut folder, &mut out);
    equal(rt, lines, failing, ended, status);
    bytes_are(rt, lines, failing, out.bytes(), lines.as_bytes());
    Ok(())
}

#[test]
fn points_have_their_answers(rt: HostRuntime) -> Result<(), Fail> {
    for (script, point, status, lines) in ROWS {
        point_ends(&rt, rt.alloc(), script, point, &[], *status, lines)?;
    }
    Ok(())
}

// A script, a point and the number of the call that fails, with the status and the lines.
const FAULTS: &[(&str, &str, u64, Status, &str)] = &[
    (
        "{ x in ? }",
        "x = 1;",
        2,
        Status::ReadFault,
        "read fault: s\n",
    ),
    (
        "{ x in ? }",
        "x = 1;",
        4,
        Status::ReadFault,
        "read fault: p\n",
    ),
];

#[test]
fn failed_reads_name_their_files(rt: HostRuntime) -> Result<(), Fail> {
    for (script, point, call, status, lines) in FAULTS {
        point_ends(&rt, rt.alloc(), script, point, &[*call], *status, lines)?;
    }
    Ok(())
}
