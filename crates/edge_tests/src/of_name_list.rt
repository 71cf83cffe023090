//! Lists with each kind of fault, and names of lists without one.

use name_list::{ListStop, read_list};
use std::alloc::{AllocError, Global};
use std::process::Abort;
use std::test::Fail;

// What comes of a list of these tests, of which none is long.
fn names_of(alloc: Global, text: &[u8]) -> Result<Vec<String>, ListStop> {
    if text.len() > 100_000 {
        return Err(ListStop::OutOfMemory);
    }
    read_list(alloc, text)
}

// The names, each behind a bar; or the fault.
fn shown(alloc: Global, text: &[u8]) -> Result<String, AllocError> {
    match names_of(alloc, text) {
        Ok(names) => {
            let mut line = String::new(alloc);
            for name in names.as_slice() {
                line.push_str("|")?;
                line.push_str(name.as_str())?;
            }
            Ok(line)
        }
        Err(ListStop::Fault(fault)) => format!(in alloc; "{:?} at {}", fault.kind, fault.at),
        Err(ListStop::OutOfMemory) => Err(AllocError),
    }
}

const ROWS: &[(&[u8], &str)] = &[
    (b"a\nb\n", "|a|b"),
    (b"a\nb", "|a|b"),
    (b"a b\r\n--x\n", "|a b\r|--x"),
    (b"a\na\n", "|a|a"),
    (b"", "EmptyName at 0"),
    (b"\n", "EmptyName at 0"),
    (b"a\n\nb\n", "EmptyName at 2"),
    (b"a\n\n", "EmptyName at 2"),
    (b"a\xff\n", "NotText at 1"),
    (b"a\nb\xe2\x82", "NotText at 3"),
    // The lower byte comes first.
    (b"\n\xff", "EmptyName at 0"),
    (b"\xff\n\n", "NotText at 0"),
    (b"\xe2\x82\n\n", "NotText at 0"),
    // At one byte the lower number does.
    (b"a\n\xff\n", "NotText at 2"),
    (b"\xc3\xa4\n", "|\u{e4}"),
];

fn is_shown(rt: &impl Abort, alloc: Global, text: &[u8], wanted: &str) -> Result<(), Fail> {
    let found = shown(alloc, text)?;
    assert_eq!(rt; found.as_str(), wanted);
    Ok(())
}

#[test]
fn each_list_has_its_names_or_its_fault(rt: HostRuntime) -> Result<(), Fail> {
    for (text, wanted) in ROWS {
        is_shown(&rt, rt.alloc(), *text, wanted)?;
    }
    Ok(())
}

// So many lines of one letter, each with its line feed.
fn letters(alloc: Global, lines: usize) -> Result<Vec<u8>, AllocError> {
    let mut text = Vec::new(alloc);
    for _ in 0..lines {
        text.extend_from_slice(b"a\n")?;
    }
    Ok(text)
}

// The list has so many names.
fn has_names(rt: &impl Abort, alloc: Global, text: &[u8], count: usize) -> Result<(), Fail> {
    let Ok(names) = names_of(alloc, text) else {
        return Err(Fail::new("the list has names"));
    };
    assert_eq!(rt; names.len(), count);
    Ok(())
}

#[test]
fn a_list_has_64_lines_at_most(rt: HostRuntime) -> Result<(), Fail> {
    let alloc = rt.alloc();
    let mut most = letters(alloc, 64)?;
    has_names(&rt, alloc, &most, 64)?;
    // A 65th line without bytes is no name, first of all.
    most.push(b'\n')?;
    is_shown(&rt, alloc, &most, "EmptyName at 128")?;
    let over = letters(alloc, 65)?;
    is_shown(&rt, alloc, &over, "Limit at 128")
}

// Behind byte 2^16 nothing counts, but bytes that begin before it.
#[test]
fn a_list_has_65536_bytes_at_most(rt: HostRuntime) -> Result<(), Fail> {
    let alloc = rt.alloc();
    let long = vec![in alloc; b'a'; 65537]?;
    is_shown(&rt, alloc, &long, "Limit at 65536")?;
    let room = vec![in alloc; b'a'; 65536]?;
    has_names(&rt, alloc, &room, 1)
}
