// The worked certificate in version 2, and certificates of several cases in both.
ghost use Rattle.std.specs.Prelude.{◌≤◌};
ghost use Rattle.cert_bytes.specs.Pieces.{AgreesTold};

use crate::equals::{bytes_are, text_is};
use crate::worked::{WHOLE, folder_of};
use cert_bytes::{Item, Reader, Seen, Stop, write_item, write_item2};
use fx_edge::{Folder, Items};
use std::alloc::{AllocError, Global};
use std::process::Abort;
use std::test::Fail;

/// The worked certificate of `docs/FORMATS.md` in version 2.
const SHORT: [u8; 61] = [
    0x46, 0x58, 0x50, 0x43, 2, // the head
    3, 0, 0, 0, 1, 5, 0, 1, // three nodes: x, y, x * y
    0, // no marks
    1, 0x64, 0, 1, 0, 0, 2, 0, 0, 2, 2, 0, 0, // step 0: x in [1, 2], a hypothesis
    1, 0x64, 1, 1, 1, 0, 6, 0, 0, 10, 0, 0, 0, // step 1: y in [3, 5]
    1, 6, 0, 1, 2, 0, 6, 0, 0, 10, 2, 0, 2, 2, 1, // step 2: x * y in [3, 10], by 0 and 1
    3, 1, 1, // the leaf, by step 2
    6, 1, 3, // one section, three steps
];

// Writes what is read in both versions, the end too.
fn copy_items<F: Folder>(
    folder: &mut F,
    reader: &mut Reader,
    first: &mut Vec<u8>,
    second: &mut Vec<u8>,
) -> Result<(), Stop>
    requires agrees { AgreesTold (F.told folder.old reader.old.ahead.name) reader.old.ahead }
{
    let mut seen = Seen::none();
    'calls: for _ in 0..1000 {
        let item = reader.next(folder)?;
        write_item(&item, first)?;
        write_item2(&item, seen, second)?;
        if let Item::End = item {
            return Ok(());
        }
        if seen.steps > 1000 || seen.sections > 1000 {
            return Err(Stop::Failed);
        }
        seen = seen.after(&item);
    }
    Err(Stop::Failed)
}

fn stop_text(alloc: Global, stop: Stop) -> Result<String, AllocError> {
    let text = match stop {
        Stop::Fault(fault) => format!(in alloc; "{:?} {}", fault.kind, fault.at)?,
        _ => format!(in alloc; "{stop:?}")?,
    };
    Ok(text)
}

// What comes of reading the bytes: `first` or `second` where the items are written as the same
// bytes in that version, or the fault and its byte.
fn read(alloc: Global, bytes: &[u8], most: usize) -> Result<String, AllocError>
    requires { 1 ≤ most }
{
    let mut folder = folder_of(alloc, bytes, &[], most)?;
    let mut reader = Reader::new(alloc, "c")?;
    let mut first = Vec::new(alloc);
    let mut second = Vec::new(alloc);
    if let Err(stop) = copy_items(&mut folder, &mut reader, &mut first, &mut second) {
        return stop_text(alloc, stop);
    }
    let text = if first.as_slice() == bytes {
        "first"
    } else if second.as_slice() == bytes {
        "second"
    } else {
        "written otherwise"
    };
    String::from_str(alloc, text)
}

// The worked certificate in version 2: its bytes before `front`, the piece, and its bytes from
// `back` on.
fn edited(alloc: Global, front: usize, piece: &[u8], back: usize) -> Result<Vec<u8>, AllocError> {
    let mut bytes = SHORT[..front.min(61)].to_vec(alloc)?;
    bytes.extend_from_slice(piece)?;
    bytes.extend_from_slice(&SHORT[back.min(61)..])?;
    Ok(bytes)
}

fn is_read(
    rt: &impl Abort,
    alloc: Global,
    bytes: &[u8],
    most: usize,
    wanted: &str,
) -> Result<(), Fail>
    requires { 1 ≤ most }
{
    let text = read(alloc, bytes, most)?;
    text_is(rt, most, text.as_str(), wanted);
    Ok(())
}

#[test]
fn the_second_version_is_read(rt: HostRuntime) -> Result<(), Fail> {
    is_read(&rt, rt.alloc(), &SHORT, 1, "second")?;
    is_read(&rt, rt.alloc(), &SHORT, 7, "second")?;
    is_read(&rt, rt.alloc(), &WHOLE, 7, "first")
}

// Writes the worked certificate in both versions.
fn write_both(
    alloc: Global,
    first: &mut Vec<u8>,
    second: &mut Vec<u8>,
) -> Result<bool, AllocError> {
    let mut folder = folder_of(alloc, &WHOLE, &[], 7)?;
    let mut reader = Reader::new(alloc, "c")?;
    let read = copy_items(&mut folder, &mut reader, first, second);
    Ok(read.is_ok())
}

#[test]
fn both_versions_have_the_same_items(rt: HostRuntime) -> Result<(), Fail> {
    let mut first = Vec::new(rt.alloc());
    let mut second = Vec::new(rt.alloc());
    let is_read = write_both(rt.alloc(), &mut first, &mut second)?;
    assert!(rt; is_read);
    bytes_are(&rt, 1, first.as_slice(), WHOLE.as_slice());
    bytes_are(&rt, 2, second.as_slice(), SHORT.as_slice());
    Ok(())
}

#[test]
fn each_front_of_the_second_version_is_truncated(rt: HostRuntime) -> Result<(), Fail> {
    for length in 0..61usize {
        let wanted = format!(in rt.alloc(); "Truncated {length}")?;
        is_read(&rt, rt.alloc(), &SHORT[..length], 7, wanted.as_str())?;
    }
    Ok(())
}

#[test]
fn damages_of_the_second_version_are_named(rt: HostRuntime) -> Result<(), Fail> {
    const DAMAGES: &[(usize, &[u8], usize, &str)] = &[
        (60, &[4], 61, "BadCount 60"),
        (59, &[2], 60, "BadCount 59"),
        (58, &[5], 59, "BadTag 58"),
        (61, &[0], 61, "TrailingBytes 61"),
        (13, &[0x80, 0], 14, "BadNumber 13"),
        (
            13,
            &[0x80, 0x80, 0x80, 0x80, 0x80, 0x80, 0x80, 0x80, 0x80, 0x80],
            14,
            "BadNumber 13",
        ),
        (13, &[0x80, 0x80, 4], 14, "BadNumber 13"),
        (13, &[0xff, 0xff, 3], 14, "BadTag 17"),
        (4, &[3], 5, "BadVersion 4"),
        (4, &[1], 5, "BadTag 15"),
        // the mantissa of a point that isn't kept in this form, and one beyond 2^63
        (20, &[4], 21, "BadNumber 20"),
        (
            20,
            &[0xff, 0xff, 0xff, 0xff, 0xff, 0xff, 0xff, 0xff, 0xff, 2],
            21,
            "BadNumber 20",
        ),
        // a step that it names lies behind: it is named by its number, and judged elsewhere
        (57, &[0x80, 1], 58, "second"),
        (14, &[5, 2], 14, "BadTag 60"),
    ];
    for (front, piece, back, wanted) in DAMAGES {
        let bytes = edited(rt.alloc(), *front, *piece, *back)?;
        is_read(&rt, rt.alloc(), &bytes, 7, wanted)?;
    }
    Ok(())
}

// A certificate without nodes whose cases are dead ends: what stands behind the marks, of version
// 1.
fn cases(alloc: Global, behind: &[u8]) -> Result<Vec<u8>, AllocError> {
    let mut bytes = [0x46, 0x58, 0x50, 0x43, 1, 0, 0, 0, 0].to_vec(alloc)?;
    bytes.extend_from_slice(behind)?;
    Ok(bytes)
}

// This comes of reading so many cases, of which two are there.
fn cases_are(rt: &impl Abort, alloc: Global, count: u8, wanted: &str) -> Result<(), Fail> {
    let dead: [u8; 9] = [4, 0, 0, 0, 0, 0, 0, 0, 0];
    let mut bytes = cases(alloc, &[5, count])?;
    bytes.extend_from_slice(&dead)?;
    bytes.extend_from_slice(&dead)?;
    is_read(rt, alloc, &bytes, 7, wanted)
}

const COUNTS: &[(u8, &str)] = &[
    (2u8, "first"),
    (3, "Truncated 29"),
    (0, "BadNumber 10"),
    (1, "BadNumber 10"),
    (65, "BadNumber 10"),
];

#[test]
fn several_root_sections_are_counted(rt: HostRuntime) -> Result<(), Fail> {
    for (count, wanted) in COUNTS {
        cases_are(&rt, rt.alloc(), *count, wanted)?;
    }
    Ok(())
}

fn put_cases(out: &mut Vec<u8>) -> Result<(), AllocError> {
    write_item(&Item::Cases(64), out)?;
    write_item2(&Item::Cases(64), Seen::none(), out)
}

#[test]
fn cases_stand_behind_the_marks_alone(rt: HostRuntime) -> Result<(), Fail> {
    let bytes = cases(rt.alloc(), &[5, 2, 4, 0, 0, 0, 0, 0, 0, 0, 0, 5, 2])?;
    is_read(&rt, rt.alloc(), &bytes, 7, "BadTag 20")?;
    let mut out = Vec::new(rt.alloc());
    put_cases(&mut out)?;
    bytes_are(&rt, 0, out.as_slice(), [5, 64, 5, 64].as_slice());
    Ok(())
}

// Dead ends, a leaf and the end, behind three steps of 300 sections.
fn put_ends(alloc: Global, out: &mut Vec<u8>) -> Result<(), AllocError> {
    let seen = Seen {
        steps: 3,
        sections: 300,
    };
    let leaf = Item::Leaf(Items::from_vec([3].to_vec(alloc)?));
    write_item2(&Item::Dead(2), seen, out)?;
    write_item2(&Item::Dead(4), seen, out)?;
    write_item2(&leaf, seen, out)?;
    write_item2(&Item::End, seen, out)
}

#[test]
fn steps_are_named_by_how_far_back_they_stand(rt: HostRuntime) -> Result<(), Fail> {
    let mut out = Vec::new(rt.alloc());
    put_ends(rt.alloc(), &mut out)?;
    let wanted: [u8; 20] = [
        4, 1, // one back
        4, 0xff, 0xff, 0xff, 0xff, 0xff, 0xff, 0xff, 0xff, 0xff, 1, // one ahead, modulo 2^64
        3, 1, 0, // the next
        6, 0xac, 2, 3, // 300 sections and three steps
    ];
    bytes_are(&rt, 0, out.as_slice(), wanted.as_slice());
    Ok(())
}
