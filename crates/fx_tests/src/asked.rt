// How far a run asks a folder to read, by how many calls, and which of them makes a file new.
// Numbers were worked out by hand.
ghost use Rattle.std.specs.Prelude.{None};

use crate::equals::{bytes_are, equal};
use crate::made_files::{PRODUCT, SECOND};
use crate::runs::words_of;
use command_runs::Status;
use fx_edge::{Failed, Folder, MemFolder, OpenGate, SureSink};
use fx_top::fx_run;
use std::alloc::{AllocError, Global};
use std::process::Abort;
use std::sync::Wait;
use std::test::Fail;
use std::thread::Threads;

// A folder over another, beside whose files one named `z` has no end: each of its bytes is a blank.
// Calls are numbered from 1 over all methods.
#[derive(Drop)]
struct Noted<F: Folder + Drop> {
    held: F,
    // the most bytes of `z` that a read gives
    most: usize,
    calls: u64,
    // one past the last byte of `z` that was asked for
    asked: u64,
    // how often a file was made new, and by which call the last time
    times: u64,
    made: u64,
}

impl<F: Folder + Drop> Folder for Noted<F> {
    ghost told = { λ d name. None };

    ghost read_faults = { λ d. F.read_faults d.held };

    ghost write_faults = { λ d. F.write_faults d.held };

    fn read(&mut self, name: &str, at: u64, buf: &mut [u8]) -> Result<usize, Failed> {
        self.calls = self.calls.saturating_add(1);
        if name != "z" {
            return self.held.read(name, at, buf);
        }
        self.asked = self.asked.max(at.saturating_add(buf.len() as u64));
        let count = buf.len().min(self.most);
        buf[..count].fill(b' ');
        Ok(count)
    }

    fn fresh(&mut self, name: &str) -> Result<(), Failed> {
        self.calls = self.calls.saturating_add(1);
        self.times = self.times.saturating_add(1);
        self.made = self.calls;
        self.held.fresh(name)
    }

    fn append(&mut self, name: &str, piece: &[u8]) -> Result<usize, Failed> {
        self.calls = self.calls.saturating_add(1);
        self.held.append(name, piece)
    }
}

// A file with its name.
fn file(alloc: Global, name: &str, bytes: &[u8]) -> Result<(String, Vec<u8>), AllocError> {
    Ok((String::from_str(alloc, name)?, bytes.to_vec(alloc)?))
}

// A run over the files `a` with this text, `c` with a certificate in version 2, `n` and `z`, of
// whose bytes a call moves so many at most. It ends with this status and these lines, by so many
// calls, asks for so many bytes of `z`, and makes a file new by the call with this number alone, by
// none where it is 0.
fn run_is(
    rt: &(impl Abort + Threads + Wait + Sync),
    alloc: Global,
    words: &[&str],
    text: &str,
    most: usize,
    ended: (Status, &str),
    noted: (u64, u64, u64),
) -> Result<(), Fail> {
    let mut files = Vec::new(alloc);
    files.push(file(alloc, "a", text.as_bytes())?)?;
    files.push(file(alloc, "c", &SECOND)?)?;
    files.push(file(alloc, "n", b"old")?)?;
    let most = most.max(1);
    let mut folder = Noted {
        held: MemFolder::new(alloc, files, Vec::new(alloc), 65536, most)?,
        most,
        calls: 0,
        asked: 0,
        times: 0,
        made: 0,
    };
    let mut out = SureSink::new(alloc, 4096)?;
    let words = words_of(alloc, words)?;
    let status = fx_run(rt, alloc, &words, &mut folder, &mut out, &OpenGate);
    let (wanted, lines) = ended;
    equal(rt, lines, 0, status, wanted);
    bytes_are(rt, lines, 0, out.bytes(), lines.as_bytes());
    let (calls, asked, made) = noted;
    equal(rt, lines, 0, folder.calls, calls);
    equal(rt, lines, 0, folder.asked, asked);
    equal(rt, lines, 0, folder.made, made);
    equal(rt, lines, 0, folder.times, made.min(1));
    Ok(())
}

const SCRIPT: (Status, &str) = (Status::Script, "script: Limit(Bytes) at 1048576\n");

const CERTIFICATE: (Status, &str) = (Status::Certificate, "certificate: BadMagic at 0\n");

const CHECK: &[&str] = &["check", "a", "z"];

// Words, the text of `a`, and the most bytes that a call moves; how the run ends, by how many
// calls, and how far it asks. A script's first 2^20 + 1 bytes show that it is too long, a point's
// and a program's first 2^16 + 1. Of a list three bytes more may show that a character is broken
// off, which goes before that. They are asked for 2^16 bytes at a time. So is a certificate, at
// each place behind what was read. Another file is read by one call more, which finds its end.
const READ: &[(&[&str], &str, usize, (Status, &str), u64, u64)] = &[
    (&["prove", "z"], "", 1, SCRIPT, 1_048_577, 1_048_577),
    (&["prove", "z"], "", 1000, SCRIPT, 1049, 1_048_577),
    (&["prove", "z"], "", 1024, SCRIPT, 1025, 1_048_577),
    (&["prove", "z"], "", 9000, SCRIPT, 117, 1_048_577),
    (&["prove", "z"], "", 100_000, SCRIPT, 17, 1_048_577),
    (
        &["prove", "z", "--cert", "n"],
        "",
        4096,
        SCRIPT,
        257,
        1_048_577,
    ),
    (&["check", "z", "c"], "", 4096, SCRIPT, 257, 1_048_577),
    (&["trim", "z", "c", "n"], "", 4096, SCRIPT, 257, 1_048_577),
    (&["at", "z", "c"], "", 4096, SCRIPT, 257, 1_048_577),
    (
        &["batch", "a"],
        "z",
        4096,
        (
            Status::Script,
            "script z\nscript: Limit(Bytes) at 1048576\n",
        ),
        259,
        1_048_577,
    ),
    (
        &["batch", "z"],
        "",
        4096,
        (Status::List, "list: Limit at 65536\n"),
        17,
        65_540,
    ),
    (
        &["at", "a", "z"],
        PRODUCT,
        4096,
        (Status::Point, "point: Limit at 65536\n"),
        19,
        65_537,
    ),
    (
        &["fix", "z", "n"],
        "",
        4096,
        (Status::Program, "program: Limit at 65536\n"),
        17,
        65_537,
    ),
    // the fault is seen behind the first four bytes
    (CHECK, PRODUCT, 4096, CERTIFICATE, 3, 65_536),
    (CHECK, PRODUCT, 1, CERTIFICATE, 47, 65_539),
    (
        &["trim", "a", "z", "n"],
        PRODUCT,
        4096,
        CERTIFICATE,
        3,
        65_536,
    ),
    (&["upgrade", "z", "n"], "", 4096, CERTIFICATE, 1, 65_536),
];

#[test]
fn no_byte_is_asked_for_that_decides_nothing(rt: HostRuntime) -> Result<(), Fail> {
    for (words, text, most, ended, calls, asked) in READ {
        let noted = (*calls, *asked, 0);
        run_is(&rt, rt.alloc(), *words, text, *most, *ended, noted)?;
    }
    Ok(())
}

const CERT: &[&str] = &["prove", "a", "--cert", "n"];

const PRODUCT_LINE: &str = "x * y in [3, 5b1]\n";

// Words, the text of `a`, the most bytes that a call moves, and the lines; the number of calls, and
// of the one that makes `n` new. That comes behind those that read. `prove` then writes the head,
// what belongs to each box, and the end, each by one call where that moves all. Its runs have one
// box, two cases of one box each, and a tree of 15. What the others write is short, and moves at
// once.
const MADE: &[(&[&str], &str, usize, &str, u64, u64)] = &[
    (CERT, PRODUCT, 65_536, PRODUCT_LINE, 6, 3),
    // 42 bytes to read; then 14, 44 and 3 to write
    (CERT, PRODUCT, 16, PRODUCT_LINE, 10, 5),
    (
        CERT,
        "{ x in [0,1] \\/ x in [3,4] -> x * x in ? }",
        65_536,
        "x * x in [0, 1b4]\n",
        7,
        3,
    ),
    (
        CERT,
        "{ x in [0,1] -> x * (1 - x) in [0,0.3] } x * (1 - x) $ x;",
        65_536,
        "x * ( 1 - x ) in [0, 9b-5]\n",
        20,
        3,
    ),
    // the certificate is read twice, and `n` is made between
    (
        &["upgrade", "c", "n"],
        "",
        65_536,
        "upgraded: 1 sections, 3 steps\n",
        6,
        3,
    ),
    (
        &["trim", "a", "c", "n"],
        PRODUCT,
        65_536,
        "trimmed: 3 of 3 steps\n",
        6,
        5,
    ),
    (
        &["fix", "a", "n"],
        "in x:u1.0[0,1];out x;",
        65_536,
        "fix: 0 steps, 1 outputs\n",
        4,
        3,
    ),
];

#[test]
fn a_file_is_made_new_once(rt: HostRuntime) -> Result<(), Fail> {
    for (words, text, most, lines, calls, made) in MADE {
        let (ended, noted) = ((Status::Answered, *lines), (*calls, 0, *made));
        run_is(&rt, rt.alloc(), *words, text, *most, ended, noted)?;
    }
    Ok(())
}
