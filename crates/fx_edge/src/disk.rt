// The real outside. The folder tells no content: that a disk holds what was written to it is no
// clause of this crate.
ghost use Rattle.std.specs.Prelude.{◌≡◌, None, IfOk, ◌≤◌, ◌<◌, length};
ghost use Rattle.std.specs.Io.{ReadsAtMost};
ghost use Rattle.std.specs.Io.KnownBytes.{ReadConsumes, WriteAppends};
ghost use Rattle.fx_edge.specs.Outside.{HasCause};

use crate::outside::count_failure;
use crate::{Failed, Folder, Sink};
use std::fs::{Metadata, OpenFile, OpenOptions};
use std::io::{ErrorKind, Read, Seek, SeekFrom, Write};
use std::os::unix::fs::MetadataExt;
use std::rt::Files;
use std::{fs, io};

// How often an interrupted call is tried again.
const TRIES: u32 = 1000;

// One read, tried again where a signal interrupts it. Each error counts.
fn read_some<R: Read>(reader: &mut R, buf: &mut [u8], faults: &mut u64) -> Result<usize, Failed>
    ensures bound { ReadsAtMost result buf.new }
    ensures bytes { ReadConsumes (R.remaining reader.old) (R.remaining reader.new) result buf.new }
    ensures cause { HasCause faults.old faults.new result }
{
    'tries: for _ in 0..TRIES {
        match reader.read(buf) {
            Ok(count) => return Ok(count),
            Err(error) if error.kind() == ErrorKind::Interrupted => {
                *faults = faults.saturating_add(1);
            }
            Err(_) => return count_failure(faults),
        }
    }
    count_failure(faults)
}

// One write, tried again in the same way. A writer that takes nothing of a piece that isn't empty
// fails.
fn write_some<W: Write>(writer: &mut W, piece: &[u8], faults: &mut u64) -> Result<usize, Failed>
    ensures bound { IfOk result (λ n. n ≤ length piece.now) }
    ensures some { IfOk result (λ n. 0 < length piece.now → 0 < n) }
    ensures bytes { WriteAppends (W.contents writer.old) (W.contents writer.new) result piece.now }
    ensures cause { HasCause faults.old faults.new result }
{
    if piece.is_empty() {
        return Ok(0);
    }
    'tries: for _ in 0..TRIES {
        match writer.write(piece) {
            Ok(count) if count > 0 => return Ok(count),
            Err(error) if error.kind() == ErrorKind::Interrupted => {
                *faults = faults.saturating_add(1);
            }
            _ => return count_failure(faults),
        }
    }
    count_failure(faults)
}

fn open_at<R: Files>(rt: &R, name: &str, at: u64) -> io::Result<R::File> {
    let mut file = fs::open(rt, name)?;
    file.seek(SeekFrom::Start(at))?;
    Ok(file)
}

// A file's device and its number there: the same under each of its names. Number 0 is no file's.
#[derive(Clone, Copy)]
struct FileId {
    device: u64,
    number: u64,
}

impl FileId {
    fn of(about: &Metadata) -> FileId {
        FileId {
            device: about.dev(),
            number: about.ino(),
        }
    }

    fn is_same(self, other: FileId) -> bool {
        self.number != 0 && self.number == other.number && self.device == other.device
    }
}

// The last two files that were read. No command reads more than two that it could write over.
#[derive(Clone, Copy)]
struct LastRead {
    last: FileId,
    before: FileId,
}

impl LastRead {
    fn new() -> LastRead {
        let none = FileId {
            device: 0,
            number: 0,
        };
        LastRead {
            last: none,
            before: none,
        }
    }

    fn take(&mut self, id: FileId) {
        if !self.last.is_same(id) {
            self.before = self.last;
            self.last = id;
        }
    }

    fn has(self, id: FileId) -> bool {
        self.last.is_same(id) || self.before.is_same(id)
    }
}

// Whether standard output leads to the file. What can't be asked is taken for another file.
fn is_output<R: Files>(rt: &R, id: FileId) -> bool {
    match fs::metadata(rt, "/proc/self/fd/1") {
        Ok(about) => FileId::of(&about).is_same(id),
        Err(_) => false,
    }
}

// Opens the name to be written and empties it, or leaves it as it was if it is a file that was
// read, or the file that standard output leads to, as lines would be written over its bytes. What
// is no plain file, as a pipe or a device, has no bytes to lose.
fn empty_new<R: Files>(rt: &R, name: &str, read: LastRead) -> io::Result<()> {
    let file = OpenOptions::new().write(true).create(true).open(rt, name)?;
    let about = file.metadata()?;
    let id = FileId::of(&about);
    if read.has(id) {
        return Err(io::Error::from(ErrorKind::AlreadyExists));
    }
    if about.is_file() {
        if is_output(rt, id) {
            return Err(io::Error::from(ErrorKind::AlreadyExists));
        }
        file.set_len(0)?;
    }
    Ok(())
}

/// The files of the folder that the program runs in. Each call opens its file. A file that was read
/// isn't made new under any of its names (the last two are known by device and number), nor is the
/// file that standard output leads to: that call fails.
#[derive(Drop)]
pub struct DiskFolder<R: Files + Clone + Drop> {
    rt: R,
    read: LastRead,
    read_faults: u64,
    write_faults: u64,
}

impl<R: Files + Clone + Drop> DiskFolder<R> {
    /// A folder with no faults yet.
    pub fn new(rt: R) -> DiskFolder<R>
        ensures reads { ⟦<DiskFolder<R> as Folder>⟧.read_faults result ≡ 0 }
        ensures writes { ⟦<DiskFolder<R> as Folder>⟧.write_faults result ≡ 0 }
    {
        DiskFolder {
            rt,
            read: LastRead::new(),
            read_faults: 0,
            write_faults: 0,
        }
    }
}

impl<R: Files + Clone + Drop> Folder for DiskFolder<R> {
    ghost told = { λ d name. None };

    ghost read_faults = { λ d. d.read_faults };

    ghost write_faults = { λ d. d.write_faults };

    fn read(&mut self, name: &str, at: u64, buf: &mut [u8]) -> Result<usize, Failed> {
        match open_at(&self.rt, name, at) {
            Ok(mut file) => {
                if let Ok(about) = file.metadata() {
                    self.read.take(FileId::of(&about));
                }
                read_some(&mut file, buf, &mut self.read_faults)
            }
            Err(_) => count_failure(&mut self.read_faults),
        }
    }

    fn fresh(&mut self, name: &str) -> Result<(), Failed> {
        match empty_new(&self.rt, name, self.read) {
            Ok(()) => Ok(()),
            Err(_) => count_failure(&mut self.write_faults),
        }
    }

    fn append(&mut self, name: &str, piece: &[u8]) -> Result<usize, Failed> {
        match OpenOptions::new().append(true).open(&self.rt, name) {
            Ok(mut file) => write_some(&mut file, piece, &mut self.write_faults),
            Err(_) => count_failure(&mut self.write_faults),
        }
    }
}

/// A sink over any writer. It tells the bytes that the writer tells.
#[derive(Drop)]
pub struct StdSink<W: Write + Drop> {
    inner: W,
    faults: u64,
}

impl<W: Write + Drop> StdSink<W> {
    /// A sink with no faults yet.
    pub fn new(inner: W) -> StdSink<W>
        ensures taken { ⟦<StdSink<W> as Sink>⟧.taken result ≡ W.contents inner }
        ensures faults { ⟦<StdSink<W> as Sink>⟧.faults result ≡ 0 }
    {
        StdSink { inner, faults: 0 }
    }
}

impl<W: Write + Drop> Sink for StdSink<W> {
    ghost taken = { λ s. W.contents s.inner };

    ghost faults = { λ s. s.faults };

    fn put(&mut self, piece: &[u8]) -> Result<usize, Failed> {
        write_some(&mut self.inner, piece, &mut self.faults)
    }
}
