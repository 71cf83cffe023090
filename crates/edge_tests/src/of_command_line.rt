//! Words after a command, and what they ask for, worked out by hand.
use command_line::{
    WordsError, read_at, read_batch, read_check, read_fix, read_gen, read_prove, read_trim,
    read_upgrade,
};
use std::alloc::{AllocError, Global};
use std::fmt::Debug;
use std::process::Abort;
use std::test::Fail;

// What is asked for: the name, rounds, depth, boxes and workers.
type Numbers = (&'static str, u8, u8, u32, u8);

// Words after `prove`, and what they ask for, if it is anything.
const ROWS: &[(&[&str], Option<Numbers>)] = &[
    (&["a"], Some(("a", 20, 16, 4096, 4))),
    (&["-"], Some(("-", 20, 16, 4096, 4))),
    (&["a b"], Some(("a b", 20, 16, 4096, 4))),
    // options, in both forms and anywhere among the names
    (&["a", "--rounds=3"], Some(("a", 3, 16, 4096, 4))),
    (&["--rounds", "3", "a"], Some(("a", 3, 16, 4096, 4))),
    (
        &[
            "--rounds",
            "1",
            "--depth=0",
            "a",
            "--boxes",
            "1",
            "--workers=1",
        ],
        Some(("a", 1, 0, 1, 1)),
    ),
    (
        &[
            "--workers=16",
            "--boxes=8192",
            "--depth=32",
            "--rounds=64",
            "a",
        ],
        Some(("a", 64, 32, 8192, 16)),
    ),
    // names behind `--`
    (&["--", "-a"], Some(("-a", 20, 16, 4096, 4))),
    (&["--", "--rounds=3"], Some(("--rounds=3", 20, 16, 4096, 4))),
    (&["--rounds", "3", "--", "--"], Some(("--", 3, 16, 4096, 4))),
    (&["a", "--"], Some(("a", 20, 16, 4096, 4))),
    (&["--", "a", "--rounds", "3"], None),
    // the number of names, and an empty one
    (&[], None),
    (&["a", "b"], None),
    (&["a", "--", "b"], None),
    (&[""], None),
    (&["--", ""], None),
    // no value, or none that is a number in its range
    (&["a", "--rounds"], None),
    (&["--rounds", "--", "a"], None),
    (&["a", "--rounds", "--depth=3"], None),
    (&["a", "--rounds", "-3"], None),
    (&["a", "--rounds", "-"], None),
    (&["a", "--rounds="], None),
    (&["a", "--rounds", ""], None),
    (&["a", "--rounds=+3"], None),
    (&["a", "--rounds= 3"], None),
    (&["a", "--rounds=3=4"], None),
    (&["a", "--rounds", "0"], None),
    (&["a", "--rounds", "65"], None),
    (&["a", "--depth", "03"], None),
    (&["a", "--depth", "33"], None),
    (&["a", "--boxes=08192"], None),
    (&["a", "--boxes=18446744073709551617"], None),
    (&["a", "--workers", "17"], None),
    // unknown, shortened and repeated options
    (&["a", "--rou", "3"], None),
    (&["a", "-h"], None),
    (&["a", "--help"], None),
    (&["a", "--version"], None),
    (&["a", "--rounds", "3", "--rounds=3"], None),
];

// Words after `prove`, and the names of the script and the certificate that they ask for, if they
// do.
const CERTS: &[(&[&str], Option<(&str, Option<&str>)>)] = &[
    (&["a"], Some(("a", None))),
    // in both forms and anywhere among the names
    (&["a", "--cert", "b"], Some(("a", Some("b")))),
    (&["--cert=b", "a"], Some(("a", Some("b")))),
    (&["--cert", "-", "a", "--depth=0"], Some(("a", Some("-")))),
    (&["a", "--cert", "a "], Some(("a", Some("a ")))),
    // what stands behind `=` is the value, whatever it begins with
    (&["a", "--cert=-b"], Some(("a", Some("-b")))),
    (&["--cert=--", "a"], Some(("a", Some("--")))),
    (&["--cert=b=c", "a"], Some(("a", Some("b=c")))),
    // names behind `--`
    (
        &["--cert", "b", "--", "--cert"],
        Some(("--cert", Some("b"))),
    ),
    (&["--", "--cert=b"], Some(("--cert=b", None))),
    (&["a", "--", "--cert", "b"], None),
    // no value, and an empty one
    (&["a", "--cert"], None),
    (&["--cert", "--", "a"], None),
    (&["a", "--cert", "-b"], None),
    (&["a", "--cert", "--depth=3"], None),
    (&["a", "--cert="], None),
    (&["a", "--cert", ""], None),
    // the script's name
    (&["a", "--cert", "a"], None),
    (&["--cert=a", "a"], None),
    (&["--cert=-a", "--", "-a"], None),
    // no script, and an empty name
    (&["--cert", "b"], None),
    (&["", "--cert", "b"], None),
    // twice, and shortened
    (&["a", "--cert", "b", "--cert=c"], None),
    (&["a", "--cert=b", "--cert=b"], None),
    (&["a", "--cer", "b"], None),
    (&["a", "-c", "b"], None),
];

// Words after `gen`, and the degree that they ask for, if they do.
const DEGREES: &[(&[&str], Option<u8>)] = &[
    (&["1"], Some(1)),
    (&["12"], Some(12)),
    (&["--", "3"], Some(3)),
    (&["7", "--"], Some(7)),
    (&[], None),
    (&["1", "2"], None),
    (&[""], None),
    (&["0"], None),
    (&["13"], None),
    (&["01"], None),
    (&["+1"], None),
    (&["-1"], None),
    (&["--", "-1"], None),
    (&["1 "], None),
    (&["4294967297"], None),
    (&["1", "--rounds", "3"], None),
    (&["1", "-h"], None),
    (&["--help"], None),
];

// Words after a command of two names, and the names that they ask for, if they do.
const NAMES: &[(&[&str], Option<(&str, &str)>)] = &[
    (&["a", "b"], Some(("a", "b"))),
    (&["b", "a"], Some(("b", "a"))),
    (&["-", "a"], Some(("-", "a"))),
    (&["a", "--", "-b"], Some(("a", "-b"))),
    (&["--", "--", "-"], Some(("--", "-"))),
    (&["a", "a "], Some(("a", "a "))),
    (&[], None),
    (&["a"], None),
    (&["a", "b", "c"], None),
    (&["a", "a"], None),
    (&["", "b"], None),
    (&["a", ""], None),
    (&["a", "b", "--rounds", "3"], None),
    (&["a", "-b"], None),
];

// Words after `trim`, and the names of the script, the certificate and the new one that they ask
// for, if they do.
const TRIMS: &[(&[&str], Option<(&str, &str, &str)>)] = &[
    (&["a", "b", "c"], Some(("a", "b", "c"))),
    (&["c", "a", "b"], Some(("c", "a", "b"))),
    (&["a", "b", "--", "-c"], Some(("a", "b", "-c"))),
    // too few, and too many
    (&["a", "b"], None),
    (&["a", "b", "--"], None),
    (&["a", "b", "c", "d"], None),
    // an empty one
    (&["", "b", "c"], None),
    (&["a", "", "c"], None),
    (&["a", "b", ""], None),
    // two that are equal
    (&["a", "a", "c"], None),
    (&["a", "b", "a"], None),
    (&["a", "b", "b"], None),
    // no option is there
    (&["a", "b", "c", "--cert=d"], None),
];

// Words after `batch`, and what they ask for, if it is anything.
const BATCHES: &[(&[&str], Option<Numbers>)] = &[
    (&["a"], Some(("a", 20, 16, 256, 4))),
    (&["--", "-a"], Some(("-a", 20, 16, 256, 4))),
    (&["--boxes", "512", "a"], Some(("a", 20, 16, 512, 4))),
    (
        &["a", "--rounds=1", "--depth=0", "--boxes=1", "--workers=1"],
        Some(("a", 1, 0, 1, 1)),
    ),
    (
        &["--workers=16", "--depth=32", "--rounds=64", "a"],
        Some(("a", 64, 32, 256, 16)),
    ),
    // the number of names, and an empty one
    (&[], None),
    (&["a", "b"], None),
    (&[""], None),
    // numbers out of their ranges
    (&["a", "--rounds", "65"], None),
    (&["a", "--depth", "33"], None),
    (&["a", "--boxes", "0"], None),
    (&["a", "--boxes", "513"], None),
    (&["a", "--workers", "17"], None),
    // an option of `prove` alone, and one given twice
    (&["a", "--cert", "b"], None),
    (&["a", "--boxes=1", "--boxes=1"], None),
];

// The words, as texts of their own.
fn words_of(alloc: Global, words: &[&str]) -> Result<Vec<String>, AllocError> {
    let mut all = Vec::new(alloc);
    for word in words {
        all.push(String::from_str(alloc, *word)?)?;
    }
    Ok(all)
}

// What was read is what the words ask for.
fn is_wanted<T: Debug + PartialEq + Drop>(
    rt: &impl Abort,
    line: &[&str],
    found: Result<T, WordsError>,
    wanted: Option<T>,
) {
    match found {
        Ok(found) => {
            assert_eq!(rt; Some(found), wanted, "{line:?}");
        }
        Err(error) => {
            assert_eq!(rt; error, WordsError::Usage, "{line:?}");
            assert!(rt; wanted.is_none(), "{line:?}");
        }
    }
}

// What `prove` reads of the words.
fn prove_is(
    rt: &(impl Abort + AllocGlobal),
    line: &[&str],
    wanted: Option<Numbers>,
) -> Result<(), Fail> {
    let words = words_of(rt.alloc(), line)?;
    let found = read_prove(rt.alloc(), &words).map(|r| (
        r.script,
        r.options.rounds,
        r.options.depth,
        r.options.boxes,
        r.options.workers,
    ));
    is_wanted(rt, line, found, wanted);
    Ok(())
}

#[test]
fn words_are_read(rt: HostRuntime) -> Result<(), Fail> {
    for (line, wanted) in ROWS {
        prove_is(&rt, *line, *wanted)?;
    }
    Ok(())
}

// The names that `prove` reads of the words.
fn cert_is(
    rt: &(impl Abort + AllocGlobal),
    line: &[&str],
    wanted: Option<(&str, Option<&str>)>,
) -> Result<(), Fail> {
    let words = words_of(rt.alloc(), line)?;
    let found = read_prove(rt.alloc(), &words).map(|r| (r.script, r.cert));
    is_wanted(rt, line, found, wanted);
    Ok(())
}

#[test]
fn certs_are_read(rt: HostRuntime) -> Result<(), Fail> {
    for (line, wanted) in CERTS {
        cert_is(&rt, *line, *wanted)?;
    }
    Ok(())
}

#[test]
fn degrees_are_read(rt: HostRuntime) -> Result<(), Fail> {
    for (line, wanted) in DEGREES {
        let words = words_of(rt.alloc(), *line)?;
        is_wanted(&rt, *line, read_gen(rt.alloc(), &words), *wanted);
    }
    Ok(())
}

// What the commands of two names read of the words.
fn names_are(
    rt: &(impl Abort + AllocGlobal),
    line: &[&str],
    words: &[String],
    wanted: Option<(&str, &str)>,
) {
    let checked = read_check(rt.alloc(), words).map(|r| (r.script, r.cert));
    is_wanted(rt, line, checked, wanted);
    let upgraded = read_upgrade(rt.alloc(), words).map(|r| (r.cert, r.new));
    is_wanted(rt, line, upgraded, wanted);
    let fixed = read_fix(rt.alloc(), words).map(|r| (r.program, r.script));
    is_wanted(rt, line, fixed, wanted);
    let at = read_at(rt.alloc(), words).map(|r| (r.script, r.point));
    is_wanted(rt, line, at, wanted);
}

#[test]
fn names_are_read(rt: HostRuntime) -> Result<(), Fail> {
    for (line, wanted) in NAMES {
        let words = words_of(rt.alloc(), *line)?;
        names_are(&rt, *line, &words, *wanted);
    }
    Ok(())
}

// The names that `trim` reads of the words.
fn trim_is(
    rt: &(impl Abort + AllocGlobal),
    line: &[&str],
    wanted: Option<(&str, &str, &str)>,
) -> Result<(), Fail> {
    let words = words_of(rt.alloc(), line)?;
    let found = read_trim(rt.alloc(), &words).map(|r| (r.script, r.cert, r.new));
    is_wanted(rt, line, found, wanted);
    Ok(())
}

#[test]
fn three_names_are_read(rt: HostRuntime) -> Result<(), Fail> {
    for (line, wanted) in TRIMS {
        trim_is(&rt, *line, *wanted)?;
    }
    Ok(())
}

// What `batch` reads of the words.
fn batch_is(
    rt: &(impl Abort + AllocGlobal),
    line: &[&str],
    wanted: Option<Numbers>,
) -> Result<(), Fail> {
    let words = words_of(rt.alloc(), line)?;
    let found = read_batch(rt.alloc(), &words).map(|r| (
        r.list,
        r.options.rounds,
        r.options.depth,
        r.options.boxes,
        r.options.workers,
    ));
    is_wanted(rt, line, found, wanted);
    Ok(())
}

#[test]
fn batches_are_read(rt: HostRuntime) -> Result<(), Fail> {
    for (line, wanted) in BATCHES {
        batch_is(&rt, *line, *wanted)?;
    }
    Ok(())
}
