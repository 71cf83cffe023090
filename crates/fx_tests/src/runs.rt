// One run over memory forms, and what it has to answer.
use crate::equals::{bytes_are, equal};
use command_runs::Status;
use fx_edge::{MemFolder, MemSink, OpenGate, SureFolder, SureSink};
use fx_top::fx_run;
use std::alloc::{AllocError, Global};
use std::process::Abort;
use std::sync::Wait;
use std::test::Fail;
use std::thread::Threads;

/// A run of `prove a`, where the file `a` has this text.
#[derive(Clone, Copy)]
pub struct Run<'a> {
    pub text: &'a [u8],
    /// The numbers of the folder's calls that fail.
    pub failing_reads: &'a [u64],
    /// The numbers of the sink's calls that fail.
    pub failing_puts: &'a [u64],
    /// The most bytes that a call moves.
    pub most: usize,
}

/// The words, as texts of their own.
pub fn words_of(alloc: Global, words: &[&str]) -> Result<Vec<String>, AllocError> {
    let mut all = Vec::new(alloc);
    for word in words {
        all.push(String::from_str(alloc, *word)?)?;
    }
    Ok(all)
}

fn files_with(alloc: Global, text: &[u8]) -> Result<Vec<(String, Vec<u8>)>, AllocError> {
    let mut files = Vec::new(alloc);
    files.push((String::from_str(alloc, "a")?, text.to_vec(alloc)?))?;
    Ok(files)
}

/// The words of a run, the text of `a`, and how it ends.
pub type Row = (&'static [&'static str], &'static str, Status, &'static str);

/// The run ends with this status and line.
pub fn ends(
    rt: &(impl Abort + Threads + Wait + Sync),
    alloc: Global,
    run: &Run<'_>,
    status: Status,
    printed: &str,
) -> Result<(), Fail> {
    ends_on(rt, alloc, &["prove", "a"], run, status, printed)
}

/// The same for other words.
pub fn ends_on(
    rt: &(impl Abort + Threads + Wait + Sync),
    alloc: Global,
    words: &[&str],
    run: &Run<'_>,
    status: Status,
    printed: &str,
) -> Result<(), Fail> {
    let outside = Outside {
        files: &[("a", run.text)],
        failing_calls: run.failing_reads,
        failing_puts: run.failing_puts,
        room: 4096,
        most: run.most,
    };
    run_ends(rt, alloc, words, &outside, status, printed)
}

/// The words over a sure folder with the file `a` and a sure sink end with this status and line.
pub fn words_end(
    rt: &(impl Abort + Threads + Wait + Sync),
    alloc: Global,
    words: &[&str],
    text: &[u8],
    status: Status,
    printed: &str,
) -> Result<(), Fail> {
    let mut folder = SureFolder::new(alloc, files_with(alloc, text)?, 4096)?;
    let mut out = SureSink::new(alloc, 4096)?;
    let words = words_of(alloc, words)?;
    let ended = fx_run(rt, alloc, &words, &mut folder, &mut out, &OpenGate);
    equal(rt, printed, 0, ended, status);
    bytes_are(rt, printed, 0, out.bytes(), printed.as_bytes());
    Ok(())
}

/// The run of each row over a sure folder and a sure sink ends as the row says.
pub fn rows_end(
    rt: &(impl Abort + Threads + Wait + Sync),
    alloc: Global,
    rows: &[Row],
) -> Result<(), Fail> {
    for (words, text, status, line) in rows {
        words_end(rt, alloc, *words, text.as_bytes(), *status, line)?;
    }
    Ok(())
}

/// What a run meets.
#[derive(Clone, Copy)]
pub struct Outside<'a> {
    /// The files with their bytes.
    pub files: &'a [(&'a str, &'a [u8])],
    /// The numbers of the folder's calls that fail.
    pub failing_calls: &'a [u64],
    /// The numbers of the sink's calls that fail.
    pub failing_puts: &'a [u64],
    /// How many bytes a file and the sink have room for.
    pub room: usize,
    /// The most bytes that a call moves.
    pub most: usize,
}

/// Files that have room, in a folder and beside a sink of which no call fails.
pub fn sound<'a>(files: &'a [(&'a str, &'a [u8])], most: usize) -> Outside<'a> {
    Outside {
        files,
        failing_calls: &[],
        failing_puts: &[],
        room: 65536,
        most,
    }
}

/// How a run ended, and what it left.
#[derive(Drop)]
pub struct Ended {
    pub status: Status,
    pub folder: MemFolder,
    pub out: MemSink,
}

/// Runs the words.
pub fn run_on(
    rt: &(impl Abort + Threads + Wait + Sync),
    alloc: Global,
    words: &[&str],
    outside: &Outside<'_>,
) -> Result<Ended, Fail> {
    assert!(rt; outside.most >= 1);
    let mut files = Vec::new(alloc);
    for (name, bytes) in outside.files {
        files.push((String::from_str(alloc, *name)?, bytes.to_vec(alloc)?))?;
    }
    let failing = outside.failing_calls.to_vec(alloc)?;
    let mut folder = MemFolder::new(alloc, files, failing, outside.room, outside.most)?;
    let failing = outside.failing_puts.to_vec(alloc)?;
    let mut out = MemSink::new(alloc, failing, outside.room, outside.most)?;
    let words = words_of(alloc, words)?;
    let status = fx_run(rt, alloc, &words, &mut folder, &mut out, &OpenGate);
    Ok(Ended {
        status,
        folder,
        out,
    })
}

/// The words end with this status and line. What they left is answered.
pub fn run_left(
    rt: &(impl Abort + Threads + Wait + Sync),
    alloc: Global,
    words: &[&str],
    outside: &Outside<'_>,
    status: Status,
    printed: &str,
) -> Result<Ended, Fail> {
    let ended = run_on(rt, alloc, words, outside)?;
    equal(rt, printed, 0, ended.status, status);
    bytes_are(rt, printed, 0, ended.out.bytes(), printed.as_bytes());
    Ok(ended)
}

/// The words end with this status and line.
pub fn run_ends(
    rt: &(impl Abort + Threads + Wait + Sync),
    alloc: Global,
    words: &[&str],
    outside: &Outside<'_>,
    status: Status,
    printed: &str,
) -> Result<(), Fail> {
    run_left(rt, alloc, words, outside, status, printed)?;
    Ok(())
}

/// The words end so over these files, where a call moves this many bytes at most, for each number.
pub fn pieces_end(
    rt: &(impl Abort + Threads + Wait + Sync),
    alloc: Global,
    words: &[&str],
    files: &[(&str, &[u8])],
    pieces: &[usize],
    status: Status,
    printed: &str,
) -> Result<(), Fail> {
    for most in pieces {
        run_ends(rt, alloc, words, &sound(&*files, *most), status, printed)?;
    }
    Ok(())
}

/// The check of the certificate `c` against the script `a` ends so, for each number as above.
pub fn check_ends(
    rt: &(impl Abort + Threads + Wait + Sync),
    alloc: Global,
    text: &str,
    cert: &[u8],
    pieces: &[usize],
    status: Status,
    printed: &str,
) -> Result<(), Fail> {
    let files = [("a", text.as_bytes()), ("c", cert)];
    pieces_end(
        rt,
        alloc,
        &["check", "a", "c"],
        &files,
        pieces,
        status,
        printed,
    )
}

/// The bytes before `front`, the piece, and the bytes from `back` on.
pub fn edited(
    alloc: Global,
    bytes: &[u8],
    front: usize,
    piece: &[u8],
    back: usize,
) -> Result<Vec<u8>, AllocError> {
    let mut all = bytes[..front.min(bytes.len())].to_vec(alloc)?;
    all.extend_from_slice(piece)?;
    all.extend_from_slice(&bytes[back.min(bytes.len())..])?;
    Ok(all)
}

/// The certificate's bytes before a place, a piece, and its bytes from a place on.
pub type Edit = (usize, &'static [u8], usize);

/// The check of the edited certificate ends so, for each number as above.
pub fn edit_ends(
    rt: &(impl Abort + Threads + Wait + Sync),
    alloc: Global,
    text: &str,
    cert: &[u8],
    edit: Edit,
    pieces: &[usize],
    status: Status,
    printed: &str,
) -> Result<(), Fail> {
    let (front, piece, back) = edit;
    let cert = edited(alloc, cert, front, piece, back)?;
    check_ends(rt, alloc, text, &cert, pieces, status, printed)
}

/// Each front of the certificate is truncated at its length.
pub fn fronts_end(
    rt: &(impl Abort + Threads + Wait + Sync),
    alloc: Global,
    text: &str,
    cert: &[u8],
) -> Result<(), Fail> {
    for len in 0..cert.len() {
        let line = format!(in alloc; "certificate: Truncated at {len}\n")?;
        let front = &cert[..len];
        check_ends(
            rt,
            alloc,
            text,
            front,
            &[4096],
            Status::Certificate,
            line.as_str(),
        )?;
    }
    Ok(())
}

/// `prove` on each text ends with this status and the line beside it.
pub fn texts_end(
    rt: &(impl Abort + Threads + Wait + Sync),
    alloc: Global,
    status: Status,
    rows: &[(&str, &str)],
) -> Result<(), Fail> {
    for (text, line) in rows {
        words_end(rt, alloc, &["prove", "a"], text.as_bytes(), status, line)?;
    }
    Ok(())
}

/// The text of the pieces, each with how often it stands there.
pub fn text_of(alloc: Global, pieces: &[(&str, usize)]) -> Result<Vec<u8>, AllocError> {
    let mut text = Vec::new(alloc);
    for (piece, count) in pieces {
        for _ in 0..*count {
            text.extend_from_slice(piece.as_bytes())?;
        }
    }
    Ok(text)
}

/// `prove a` over a sure folder and a sure sink with this room ends with this status and line.
pub fn room_ends(
    rt: &(impl Abort + Threads + Wait + Sync),
    alloc: Global,
    text: &[u8],
    room: usize,
    status: Status,
    printed: &str,
) -> Result<(), Fail> {
    let mut folder = SureFolder::new(alloc, files_with(alloc, text)?, 4096)?;
    let mut out = SureSink::new(alloc, room)?;
    let words = words_of(alloc, &["prove", "a"])?;
    let ended = fx_run(rt, alloc, &words, &mut folder, &mut out, &OpenGate);
    equal(rt, printed, 0, ended, status);
    bytes_are(rt, printed, 0, out.bytes(), printed.as_bytes());
    Ok(())
}
