//! Points, and what is read of them. The faults are those of an independent program.

use crate::equals::equal;
use point_text::{PointFault, PointKind, PointStop, read_point};
use script_grammar::{Script, parse};
use std::alloc::Global;

const SCRIPT: &str = "{ x in ? /\\ y in ? }";

// A text, the kind of its fault, and the byte at which it stands.
type Row = (&'static str, PointKind, u32);

const ROWS: &[Row] = &[
    ("", PointKind::Missing, 0),
    ("x = 1; y = 2", PointKind::Unexpected, 12),
    ("x = 1; z = 2; !", PointKind::Unknown, 7),
    ("x = 1; x = 2;", PointKind::Twice, 7),
    ("x = 1 / 0.00; y = = 1;", PointKind::ZeroDivisor, 8),
    ("x = 1 / 0e99;", PointKind::LiteralLimit, 8),
];

// The fault of a text that is no point of the script.
fn fault_in(alloc: Global, script: &Script<'_>, point: &str) -> Option<PointFault> {
    match read_point(alloc, script, point.as_bytes()) {
        Err(PointStop::Fault(fault)) => Some(fault),
        _ => None,
    }
}

fn fault_of(alloc: Global, point: &str) -> Option<PointFault> {
    match parse(alloc, SCRIPT.as_bytes()) {
        Ok(script) => fault_in(alloc, &script, point),
        Err(_) => None,
    }
}

// How many rows a point of the script has.
fn rows_in(alloc: Global, script: &Script<'_>, point: &str) -> usize {
    match read_point(alloc, script, point.as_bytes()) {
        Ok(point) => point.rows.as_slice().len(),
        Err(_) => 0,
    }
}

fn rows_of(alloc: Global, point: &str) -> usize {
    match parse(alloc, SCRIPT.as_bytes()) {
        Ok(script) => rows_in(alloc, &script, point),
        Err(_) => 0,
    }
}

#[test]
fn faults_have_their_places(rt: HostRuntime) {
    for (point, kind, at) in ROWS {
        let wanted = PointFault {
            kind: *kind,
            at: *at,
        };
        equal(
            &rt,
            point.as_bytes(),
            fault_of(rt.alloc(), point),
            Some(wanted),
        );
    }
}

#[test]
fn entries_stand_in_any_order(rt: HostRuntime) {
    let point = "y = -1 / 3; x = +0x1p2; # both";
    equal(&rt, point.as_bytes(), rows_of(rt.alloc(), point), 2);
}
