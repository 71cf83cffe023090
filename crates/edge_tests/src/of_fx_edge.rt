//! What no clause says: that memory is found, that a disk keeps what was written, and what comes
//! after a real error.
use crate::equals::{all_equal, equal};
use fx_edge::{
    DiskFolder, Failed, Folder, MemFolder, MemSink, Sink, StdSink, SureFolder, SureSink,
};
use std::alloc::{AllocError, Global};
use std::io::{ErrorKind, Write};
use std::test::Fail;
use std::{env, fs, io, process};

// The files `a` with the bytes `abc`, and `b` with none.
fn two_files(alloc: Global) -> Result<Vec<(String, Vec<u8>)>, AllocError> {
    let mut files = Vec::new(alloc);
    files.push((String::from_str(alloc, "a")?, b"abc".to_vec(alloc)?))?;
    files.push((String::from_str(alloc, "b")?, Vec::new(alloc)))?;
    Ok(files)
}

#[test]
fn a_sure_folder_fails_for_two_causes(rt: HostRuntime) -> Result<(), Fail> {
    let mut folder = SureFolder::new(rt.alloc(), two_files(rt.alloc())?, 2)?;
    let mut buf = [0u8; 4];
    equal(&rt, "read", folder.read("a", 1, &mut buf), Ok(2));
    all_equal(&rt, "what was read", &buf, b"bc\0\0");
    equal(&rt, "an absent name", folder.read("c", 0, &mut buf), Ok(0));
    equal(&rt, "an absent name", folder.append("c", b""), Err(Failed));
    equal(&rt, "what fits", folder.append("b", b"xyz"), Ok(2));
    equal(&rt, "nothing fits", folder.append("b", b"z"), Err(Failed));
    equal(&rt, "an empty piece", folder.append("b", b""), Ok(0));
    equal(&rt, "made new", folder.fresh("a"), Ok(()));
    equal(
        &rt,
        "the room of the first bytes",
        folder.append("a", b"wxyz"),
        Ok(3),
    );
    equal(
        &rt,
        "what is there",
        folder.bytes("a"),
        Some(b"wxy".as_slice()),
    );
    Ok(())
}

#[test]
fn the_calls_of_a_folder_are_numbered_together(rt: HostRuntime) -> Result<(), Fail> {
    let failing = [2, 4].to_vec(rt.alloc())?;
    let mut folder = MemFolder::new(rt.alloc(), two_files(rt.alloc())?, failing, 9, 2)?;
    let mut buf = [0u8; 4];
    equal(&rt, "call 1", folder.read("a", 0, &mut buf), Ok(2));
    equal(&rt, "call 2", folder.fresh("a"), Err(Failed));
    equal(&rt, "call 3", folder.append("b", b"xyz"), Ok(2));
    equal(&rt, "call 4", folder.read("a", 0, &mut buf), Err(Failed));
    equal(
        &rt,
        "an absent name",
        folder.read("c", 0, &mut buf),
        Err(Failed),
    );
    equal(
        &rt,
        "what is there",
        folder.bytes("a"),
        Some(b"abc".as_slice()),
    );
    Ok(())
}

#[test]
fn sinks_take_what_fits(rt: HostRuntime) -> Result<(), Fail> {
    let mut sure = SureSink::new(rt.alloc(), 4)?;
    equal(&rt, "put", sure.put(b"abc"), Ok(3));
    equal(&rt, "put", sure.put(b"de"), Ok(1));
    equal(&rt, "put", sure.put(b"e"), Err(Failed));
    all_equal(&rt, "what is there", sure.bytes(), b"abcd".as_slice());
    let mut sink = MemSink::new(rt.alloc(), [2].to_vec(rt.alloc())?, 4, 3)?;
    equal(&rt, "put", sink.put(b"abcd"), Ok(3));
    equal(&rt, "call 2", sink.put(b"d"), Err(Failed));
    equal(&rt, "put", sink.put(b"de"), Ok(1));
    equal(&rt, "nothing fits", sink.put(b"e"), Err(Failed));
    all_equal(&rt, "what is there", sink.bytes(), b"abcd".as_slice());
    Ok(())
}

#[test]
fn a_disk_keeps_what_is_written(rt: HostRuntime) -> Result<(), Fail> {
    let file = format!(in rt.alloc(); "fx_edge-test-{}", process::id(rt.process()))?;
    let path = env::temp_dir(&rt)?.join(rt.alloc(), file.as_str())?;
    let name = path.as_str();
    let mut folder = DiskFolder::new(&rt);
    let mut buf = [0u8; 4];
    equal(
        &rt,
        "nothing was made yet",
        folder.append(name, b"abc"),
        Err(Failed),
    );
    equal(&rt, "made new", folder.fresh(name), Ok(()));
    equal(&rt, "append", folder.append(name, b"abc"), Ok(3));
    equal(&rt, "append", folder.append(name, b"de"), Ok(2));
    equal(&rt, "read", folder.read(name, 2, &mut buf), Ok(3));
    all_equal(&rt, "what was read", &buf, b"cde\0");
    equal(&rt, "past the end", folder.read(name, 9, &mut buf), Ok(0));
    equal(&rt, "it was read", folder.fresh(name), Err(Failed));
    equal(&rt, "and kept", folder.read(name, 1, &mut buf), Ok(4));
    equal(
        &rt,
        "another folder",
        DiskFolder::new(&rt).fresh(name),
        Ok(()),
    );
    equal(&rt, "made new", folder.read(name, 0, &mut buf), Ok(0));
    fs::remove_file(&rt, name)?;
    equal(&rt, "read", folder.read(name, 0, &mut buf), Err(Failed));
    Ok(())
}

// A writer that takes two bytes in a call, is interrupted in its second, and breaks after four
// bytes.
#[derive(Drop)]
struct Breaking {
    taken: Vec<u8>,
    calls: u8,
}

impl Write for Breaking {
    fn write(&mut self, buf: &[u8]) -> io::Result<usize> {
        self.calls = self.calls.saturating_add(1);
        if self.calls == 2 {
            return Err(io::Error::from(ErrorKind::Interrupted));
        }
        if self.taken.len() >= 4 {
            return Err(io::Error::from(ErrorKind::BrokenPipe));
        }
        let count = buf.len().min(2);
        self.taken.extend_from_slice(&buf[..count])?;
        Ok(count)
    }

    fn flush(&mut self) -> io::Result<()> {
        Ok(())
    }
}

#[test]
fn a_broken_writer_fails_the_put(rt: HostRuntime) -> Result<(), Fail> {
    let mut writer = Breaking {
        taken: Vec::new(rt.alloc()),
        calls: 0,
    };
    let mut sink = StdSink::new(&mut writer);
    equal(&rt, "put", sink.put(b"abcdef"), Ok(2));
    equal(&rt, "after an interruption", sink.put(b"cdef"), Ok(2));
    equal(&rt, "broken", sink.put(b"ef"), Err(Failed));
    equal(&rt, "an empty piece", sink.put(b""), Ok(0));
    all_equal(
        &rt,
        "what was taken",
        writer.taken.as_slice(),
        b"abcd".as_slice(),
    );
    Ok(())
}
