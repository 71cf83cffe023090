// The worked certificate, rewritten.
ghost use Rattle.std.specs.Prelude.{◌≤◌};

use crate::equals::text_is;
use cert_upgrade::{UpgradeStop, upgrade};
use fx_edge::MemFolder;
use std::alloc::{AllocError, Global};
use std::process::Abort;
use std::test::Fail;

/// The worked certificate of `docs/FORMATS.md` in version 1.
const WHOLE: [u8; 143] = [
    0x46, 0x58, 0x50, 0x43, 1, 0, 3, // the head, three nodes
    0, 0, 0, 0, 0, 1, 5, 0, 0, 0, 1, // x, y, x * y
    0, 0, // no marks
    1, 0x64, 0, 0, 1, 0, 0, // step 0: x in [1, 2], a hypothesis
    0, 0, 0, 0, 0, 0, 0, 0, 1, 0, 0, 0, 0, 0, 0, 0, 0, 0, 0, 1, 0, 1, 0, 0, 0, //
    1, 0x64, 0, 1, 1, 0, 1, // step 1: y in [3, 5]
    0, 0, 0, 0, 0, 0, 0, 0, 3, 0, 0, 0, 0, 0, 0, 0, 0, 0, 0, 5, 0, 0, 0, 0, 0, //
    1, 6, 0, 0, 1, 0, 2, // step 2: x * y in [3, 10], by 0 and 1
    0, 0, 0, 0, 0, 0, 0, 0, 3, 0, 0, 0, 0, 0, 0, 0, 0, 0, 0, 5, 0, 1, 0, 0, 2, //
    0, 0, 0, 0, 0, 0, 0, 0, 0, 0, 0, 0, 0, 0, 0, 1, //
    3, 0, 1, 0, 0, 0, 0, 0, 0, 0, 2, // the leaf, by step 2
];

/// The same in version 2.
const SHORT: [u8; 61] = [
    0x46, 0x58, 0x50, 0x43, 2, // the head
    3, 0, 0, 0, 1, 5, 0, 1, // three nodes: x, y, x * y
    0, // no marks
    1, 0x64, 0, 1, 0, 0, 2, 0, 0, 2, 2, 0, 0, // step 0: x in [1, 2], a hypothesis
    1, 0x64, 1, 1, 1, 0, 6, 0, 0, 10, 0, 0, 0, // step 1: y in [3, 5]
    1, 6, 0, 1, 2, 0, 6, 0, 0, 10, 2, 0, 2, 2, 1, // step 2: x * y in [3, 10], by 0 and 1
    3, 1, 1, // the leaf, by step 2
    6, 1, 3, // one section, three steps
];

// A folder with these bytes as "c" and three bytes as "n", which reads and writes so many bytes at
// most, and whose calls of these numbers fail.
fn folder_of(
    alloc: Global,
    bytes: &[u8],
    failing: &[u64],
    most: usize,
) -> Result<MemFolder, AllocError>
    requires { 1 ≤ most }
{
    let mut files = Vec::new(alloc);
    files.push((String::from_str(alloc, "c")?, bytes.to_vec(alloc)?))?;
    files.push((String::from_str(alloc, "n")?, [1u8, 2, 3].to_vec(alloc)?))?;
    MemFolder::new(alloc, files, failing.to_vec(alloc)?, 100, most)
}

// What a file holds, beside what it should.
fn name_of(held: &[u8]) -> &'static str {
    if held == SHORT.as_slice() {
        "the whole"
    } else if held == [1u8, 2, 3].as_slice() {
        "what it held"
    } else if SHORT.starts_with(held) {
        "a front"
    } else {
        "something else"
    }
}

// What comes of it: how many sections and steps, or why not, and what the new file holds.
fn upgraded(alloc: Global, bytes: &[u8], failing: &[u64], most: usize) -> Result<String, AllocError>
    requires { 1 ≤ most }
{
    let mut folder = folder_of(alloc, bytes, failing, most)?;
    let answer = upgrade(alloc, &mut folder, "c", "n");
    let held = match folder.bytes("n") {
        Some(held) => name_of(held),
        None => "nothing",
    };
    match answer {
        Ok(seen) => {
            let (sections, steps) = (seen.sections, seen.steps);
            format!(in alloc; "{sections} sections, {steps} steps, {held}")
        }
        Err(UpgradeStop::Fault(fault)) => {
            let (kind, at) = (fault.kind, fault.at);
            format!(in alloc; "{kind:?} {at}, {held}")
        }
        Err(stop) => format!(in alloc; "{stop:?}, {held}"),
    }
}

fn is_upgraded(
    rt: &impl Abort,
    alloc: Global,
    bytes: &[u8],
    failing: &[u64],
    most: usize,
    wanted: &str,
) -> Result<(), Fail>
    requires { 1 ≤ most }
{
    let text = upgraded(alloc, bytes, failing, most)?;
    text_is(rt, most, text.as_str(), wanted);
    Ok(())
}

#[test]
fn the_worked_certificate_is_rewritten(rt: HostRuntime) -> Result<(), Fail> {
    let (alloc, rewritten) = (rt.alloc(), "1 sections, 3 steps, the whole");
    is_upgraded(&rt, alloc, &WHOLE, &[], 1, rewritten)?;
    is_upgraded(&rt, alloc, &SHORT, &[], 7, rewritten)?;
    is_upgraded(&rt, alloc, &SHORT, &[27], 7, "WriteFailed, a front")
}

#[test]
fn a_fault_leaves_the_new_file(rt: HostRuntime) -> Result<(), Fail> {
    let cut = &WHOLE[..142];
    is_upgraded(&rt, rt.alloc(), cut, &[], 1, "Truncated 142, what it held")
}
