// Certificates that are checked: one that is accepted, another script's, damaged ones. The
// certificate and its faults were worked out by hand.
use crate::equals::equal;
use crate::runs::{Outside, check_ends, edit_ends, edited, fronts_end, run_ends, run_on, sound};
use command_runs::Status;
use std::alloc::{AllocError, Global};
use std::process::Abort;
use std::sync::Wait;
use std::test::Fail;
use std::thread::Threads;

const PRODUCT: &str = "{ x in [1,2] /\\ y in [3,5] -> x * y in ? }";

const PRODUCT_LINE: &str = "x * y in [3, 5b1]\n";

const CHECK: &[&str] = &["check", "a", "c"];

const CERT: [u8; 143] = [
    0x46, 0x58, 0x50, 0x43, 1, 0, 3, // the head, three nodes
    0, 0, 0, 0, 0, 1, 5, 0, 0, 0, 1, // x, y, x * y
    0, 0, // no marks
    1, 100, 0, 0, 1, 0, 0, // step 0: x in [1, 2], a hypothesis
    0, 0, 0, 0, 0, 0, 0, 0, 1, 0, 0, 0, 0, 0, 0, 0, 0, 0, 0, 1, 0, 1, 0, 0, 0, //
    1, 100, 0, 1, 1, 0, 1, // step 1: y in [3, 5]
    0, 0, 0, 0, 0, 0, 0, 0, 3, 0, 0, 0, 0, 0, 0, 0, 0, 0, 0, 5, 0, 0, 0, 0, 0, //
    1, 6, 0, 0, 1, 0, 2, // step 2: x * y in [3, 10], by 0 and 1
    0, 0, 0, 0, 0, 0, 0, 0, 3, 0, 0, 0, 0, 0, 0, 0, 0, 0, 0, 5, 0, 1, 0, 0, 2, //
    0, 0, 0, 0, 0, 0, 0, 0, 0, 0, 0, 0, 0, 0, 0, 1, //
    3, 0, 1, 0, 0, 0, 0, 0, 0, 0, 2, // the leaf, by step 2
];

// A script; the certificate's bytes before a place, a piece, and its bytes from a place on; and how
// the check of these ends.
const ROWS: &[(&str, usize, &[u8], usize, Status, &str)] = &[
    (PRODUCT, 143, &[], 143, Status::Answered, PRODUCT_LINE),
    // the bounds of a goal are judged by what the certificate shows
    (
        "{ x in [1,2] /\\ y in [3,5] -> x * y in [3,10] }",
        143,
        &[],
        143,
        Status::Answered,
        PRODUCT_LINE,
    ),
    (
        "{ x in [1,2] /\\ y in [3,5] -> x * y in [3,9] }",
        143,
        &[],
        143,
        Status::Certificate,
        "certificate: GoalMissing 0 1\n",
    ),
    // a wider interval may be claimed
    (
        PRODUCT,
        110,
        &[7],
        111,
        Status::Answered,
        "x * y in [3, 7b1]\n",
    ),
    // another script's
    (
        "{ x in [1,2] -> x + x in ? }",
        143,
        &[],
        143,
        Status::Certificate,
        "certificate: WrongScript 1\n",
    ),
    // an upper end that is too low, a premise that is none, an end that is cut off, a byte more,
    // another version
    (
        PRODUCT,
        103,
        &[9, 255, 255, 255, 255, 255, 255, 255, 255, 200],
        113,
        Status::Certificate,
        "certificate: BadStep 2\n",
    ),
    (
        PRODUCT,
        123,
        &[2],
        124,
        Status::Certificate,
        "certificate: BadPremise 2\n",
    ),
    (
        PRODUCT,
        142,
        &[],
        143,
        Status::Certificate,
        "certificate: Truncated at 142\n",
    ),
    (
        PRODUCT,
        143,
        &[0],
        143,
        Status::Certificate,
        "certificate: TrailingBytes at 143\n",
    ),
    (
        PRODUCT,
        4,
        &[9],
        5,
        Status::Certificate,
        "certificate: BadVersion at 4\n",
    ),
];

#[test]
fn certificates_are_checked(rt: HostRuntime) -> Result<(), Fail> {
    for (text, front, piece, back, status, printed) in ROWS {
        let edit = (*front, *piece, *back);
        let alloc = rt.alloc();
        edit_ends(
            &rt,
            alloc,
            text,
            &CERT,
            edit,
            &[1, 7, 4096],
            *status,
            printed,
        )?;
    }
    Ok(())
}

#[test]
fn each_front_is_truncated_at_its_length(rt: HostRuntime) -> Result<(), Fail> {
    fronts_end(&rt, rt.alloc(), PRODUCT, &CERT)
}

// The bytes of the last step's upper end that are higher with their low bit turned, and what is
// shown then.
const WIDER: &[(usize, &str)] = &[
    (103, "x * y in [3, 72057594037927941b1]\n"),
    (104, "x * y in [3, 281474976710661b1]\n"),
    (105, "x * y in [3, 1099511627781b1]\n"),
    (106, "x * y in [3, 4294967301b1]\n"),
    (107, "x * y in [3, 16777221b1]\n"),
    (108, "x * y in [3, 65541b1]\n"),
    (109, "x * y in [3, 261b1]\n"),
    (111, "x * y in [3, 5b257]\n"),
];

// What is shown where the byte at this place is turned, or nothing.
fn wider_line(place: usize) -> Option<&'static str> {
    for (wider, line) in WIDER {
        if *wider == place {
            return Some(*line);
        }
    }
    None
}

fn turned_ends(
    rt: &(impl Abort + Threads + Wait + Sync),
    alloc: Global,
    place: usize,
    byte: u8,
) -> Result<(), Fail> {
    let cert = edited(alloc, &CERT, place, &[byte ^ 1], place.saturating_add(1))?;
    if let Some(line) = wider_line(place) {
        return check_ends(rt, alloc, PRODUCT, &cert, &[4096], Status::Answered, line);
    }
    let files = [("a", PRODUCT.as_bytes()), ("c", cert.as_slice())];
    let ended = run_on(rt, alloc, CHECK, &sound(&files, 4096))?;
    let refused = Status::Certificate;
    equal(rt, "a turned byte", place as u64, ended.status, refused);
    Ok(())
}

#[test]
fn a_turned_bit_shows_no_narrower_interval(rt: HostRuntime) -> Result<(), Fail> {
    for (place, byte) in CERT.iter().enumerate() {
        turned_ends(&rt, rt.alloc(), place, *byte)?;
    }
    Ok(())
}

// The certificate with its steps in another order.
fn exchanged(alloc: Global) -> Result<Vec<u8>, AllocError> {
    let mut cert = CERT[..20].to_vec(alloc)?;
    cert.extend_from_slice(&CERT[84..132])?;
    cert.extend_from_slice(&CERT[52..84])?;
    cert.extend_from_slice(&CERT[20..52])?;
    cert.extend_from_slice(&CERT[132..143])?;
    Ok(cert)
}

#[test]
fn exchanged_steps_are_refused(rt: HostRuntime) -> Result<(), Fail> {
    let cert = exchanged(rt.alloc())?;
    let line = "certificate: BadPremise 0\n";
    let refused = Status::Certificate;
    check_ends(&rt, rt.alloc(), PRODUCT, &cert, &[4096], refused, line)
}

// Words, the number of the call that fails, and how the run ends. A script is read by two calls,
// the second at its end; then the certificate is.
const READS: &[(&[&str], u64, Status, &str)] = &[
    (CHECK, 1, Status::ReadFault, "read fault: a\n"),
    (CHECK, 2, Status::ReadFault, "read fault: a\n"),
    (CHECK, 3, Status::ReadFault, "read fault: c\n"),
    (CHECK, 4, Status::ReadFault, "read fault: c\n"),
    (CHECK, 5, Status::Answered, PRODUCT_LINE),
    (
        &["check", "a", "d"],
        0,
        Status::ReadFault,
        "read fault: d\n",
    ),
    (
        &["check", "b", "d"],
        0,
        Status::ReadFault,
        "read fault: b\n",
    ),
    // behind a text that is refused, no certificate is asked for
    (
        &["check", "r", "d"],
        0,
        Status::Script,
        "script: BadToken at 0\n",
    ),
];

fn read_ends(
    rt: &(impl Abort + Threads + Wait + Sync),
    alloc: Global,
    words: &[&str],
    failing: u64,
    status: Status,
    printed: &str,
) -> Result<(), Fail> {
    let outside = Outside {
        files: &[("a", PRODUCT.as_bytes()), ("c", &CERT), ("r", b"!")],
        failing_calls: &[failing],
        failing_puts: &[],
        room: 4096,
        most: 4096,
    };
    run_ends(rt, alloc, words, &outside, status, printed)
}

#[test]
fn a_read_fault_names_its_file(rt: HostRuntime) -> Result<(), Fail> {
    for (words, failing, status, printed) in READS {
        read_ends(&rt, rt.alloc(), *words, *failing, *status, printed)?;
    }
    Ok(())
}
