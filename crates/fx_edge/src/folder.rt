// Folders in memory.
ghost use Rattle.std.specs.Prelude.{◌≡◌, ◌≤◌, ◌<◌, ◌⊎◌, ◌↔◌, ℕ, List, Some, length, min, IfOk};
ghost use Rattle.std.specs.Prelude.{IfSome, IsErr, IsOk, IsOkAnd, IsNone, IsSome, OnOk, OnErr};
ghost use Rattle.std.specs.Option.{option_map};
ghost use Rattle.fx_edge.specs.Outside.{HasCause, ReadsFrom, count_after};
ghost use Rattle.fx_edge.specs.Calls.{FailsNext};
ghost use Rattle.fx_edge.specs.Held.{emptied, readable, filled};
ghost use Rattle.fx_edge.specs.Files.{last_file, bytes_there, bytes_or_none, fitting_into};
ghost use Rattle.fx_edge.specs.Files.{CannotAdd, grown, SameElsewhere};

use crate::calls::Calls;
use crate::files::Files;
use crate::outside::count_failure;
use crate::{Failed, Folder};
use std::alloc::{AllocError, Global};

/// A folder in memory, whose reads never fail. A write fails only where nothing of the piece fits,
/// or the name isn't among the files.
#[derive(Drop)]
pub struct SureFolder {
    files: Files,
    write_faults: u64,
}

impl SureFolder {
    ghost use Rattle.fx_edge.specs.Folders.{sure_file, sure_faults};

    /// A folder of these files, each with room for `room` bytes, or for its own if these are more.
    /// Of two files of one name the last is there.
    pub fn new(
        alloc: Global,
        files: Vec<(String, Vec<u8>)>,
        room: usize,
    ) -> Result<SureFolder, AllocError>
        ensures files { IfOk result (λ d.
            (name : List ℕ) → sure_file d name ≡ last_file room files.items name) }
        ensures faults { IfOk result (λ d. sure_faults d ≡ 0) }
    {
        Ok(SureFolder {
            files: Files::new(alloc, files, room)?,
            write_faults: 0,
        })
    }

    /// The bytes of a name, where it is there.
    pub fn bytes(&self, name: &str) -> Option<&[u8]>
        ensures absent { IsNone result ↔ IsNone (sure_file self.now name.now) }
        ensures bytes { IfSome result
            (λ b. bytes_there (sure_file self.now name.now) ≡ Some b.now) }
    {
        self.files.bytes(name)
    }
}

impl Folder for SureFolder {
    ghost use Rattle.fx_edge.specs.Folders.{sure_file, sure_faults};

    ghost told = { λ d name. Some (bytes_or_none (sure_file d name)) };

    ghost read_faults = { λ d. 0 };

    ghost write_faults = { sure_faults };

    fn read(&mut self, name: &str, at: u64, buf: &mut [u8]) -> Result<usize, Failed>
        ensures count { IsOkAnd result (λ n.
            n ≡ readable (bytes_or_none (sure_file self.old name.now)) at (length buf.old)) }
        ensures bytes { IfOk result (λ n.
            buf.new ≡ filled (bytes_or_none (sure_file self.old name.now)) at n buf.old) }
        ensures same { self.new ≡ self.old }
    {
        let most = buf.len();
        match self.files.read(name, at, buf, most) {
            Some(count) => Ok(count),
            None => Ok(0),
        }
    }

    fn fresh(&mut self, name: &str) -> Result<(), Failed>
        ensures there { IsOk result ↔ IsSome (sure_file self.old name.now) }
        ensures emptied { sure_file self.new name.now
            ≡ option_map emptied (sure_file self.old name.now) }
        ensures others { SameElsewhere name.now (sure_file self.old) (sure_file self.new) }
        ensures counts { sure_faults self.new ≡ count_after result (sure_faults self.old) }
        ensures cause { HasCause (sure_faults self.old) (sure_faults self.new) result }
    {
        if self.files.clear(name) {
            return Ok(());
        }
        count_failure(&mut self.write_faults)
    }

    fn append(&mut self, name: &str, piece: &[u8]) -> Result<usize, Failed>
        ensures fails { IsErr result ↔ CannotAdd (sure_file self.old name.now) piece.now }
        ensures count { IfOk result
            (λ n. n ≡ fitting_into (sure_file self.old name.now) piece.now) }
        ensures added { IfOk result (λ n.
            sure_file self.new name.now ≡ grown (sure_file self.old name.now) n piece.now) }
        ensures kept { OnErr result (sure_file self.new name.now ≡ sure_file self.old name.now) }
        ensures others { SameElsewhere name.now (sure_file self.old) (sure_file self.new) }
        ensures counts { sure_faults self.new ≡ count_after result (sure_faults self.old) }
        ensures cause { HasCause (sure_faults self.old) (sure_faults self.new) result }
    {
        if let Some(count) = self.files.add(name, piece) {
            return Ok(count);
        }
        count_failure(&mut self.write_faults)
    }
}

/// A folder in memory that moves at most `most` bytes in a call, and whose calls with the numbers
/// in `failing` fail. The calls are numbered from 1 over all methods. A read of a name that isn't
/// there fails.
#[derive(Drop)]
pub struct MemFolder {
    files: Files,
    calls: Calls,
    read_faults: u64,
    write_faults: u64,
}

impl MemFolder {
    ghost use Rattle.fx_edge.specs.Folders.{mem_file, tally, new_tally};

    /// A folder of these files, each with room for `room` bytes, or for its own if these are more.
    /// Of two files of one name the last is there.
    pub fn new(
        alloc: Global,
        files: Vec<(String, Vec<u8>)>,
        failing: Vec<u64>,
        room: usize,
        most: usize,
    ) -> Result<MemFolder, AllocError>
        requires { 1 ≤ most }
        ensures files { IfOk result (λ d.
            (name : List ℕ) → mem_file d name ≡ last_file room files.items name) }
        ensures tally { IfOk result (λ d. tally d ≡ new_tally failing.items most) }
    {
        Ok(MemFolder {
            files: Files::new(alloc, files, room)?,
            calls: Calls::new(failing, most),
            read_faults: 0,
            write_faults: 0,
        })
    }

    /// The bytes of a name, where it is there.
    pub fn bytes(&self, name: &str) -> Option<&[u8]>
        ensures absent { IsNone result ↔ IsNone (mem_file self.now name.now) }
        ensures bytes { IfSome result (λ b. bytes_there (mem_file self.now name.now) ≡ Some b.now) }
    {
        self.files.bytes(name)
    }
}

impl Folder for MemFolder {
    ghost use Rattle.fx_edge.specs.Folders.{mem_file, calls_of, tally, after_read, after_write};

    ghost told = { λ d name. bytes_there (mem_file d name) };

    ghost read_faults = { λ d. (tally d).read_faults };

    ghost write_faults = { λ d. (tally d).write_faults };

    fn read(&mut self, name: &str, at: u64, buf: &mut [u8]) -> Result<usize, Failed>
        ensures fails { IsErr result
            ↔ (FailsNext (calls_of self.old) ⊎ IsNone (mem_file self.old name.now)) }
        ensures count { IfOk result (λ n.
            n ≡ min (readable (bytes_or_none (mem_file self.old name.now)) at (length buf.old))
            (calls_of self.old).most) }
        ensures bytes { IfOk result (λ n.
            buf.new ≡ filled (bytes_or_none (mem_file self.old name.now)) at n buf.old) }
        ensures piece { ReadsFrom (bytes_there (mem_file self.old name.now)) at result buf.new }
        ensures kept { OnErr result (buf.new ≡ buf.old) }
        ensures same { (other : List ℕ) → mem_file self.new other ≡ mem_file self.old other }
        ensures counts { tally self.new ≡ after_read result (tally self.old) }
        ensures cause { HasCause (tally self.old).read_faults (tally self.new).read_faults result }
    {
        let most = self.calls.most();
        if !self.calls.next_fails() {
            if let Some(count) = self.files.read(name, at, buf, most) {
                return Ok(count);
            }
        }
        count_failure(&mut self.read_faults)
    }

    fn fresh(&mut self, name: &str) -> Result<(), Failed>
        ensures fails { IsErr result
            ↔ (FailsNext (calls_of self.old) ⊎ IsNone (mem_file self.old name.now)) }
        ensures emptied { OnOk result
            (mem_file self.new name.now ≡ option_map emptied (mem_file self.old name.now)) }
        ensures kept { OnErr result (mem_file self.new name.now ≡ mem_file self.old name.now) }
        ensures others { SameElsewhere name.now (mem_file self.old) (mem_file self.new) }
        ensures counts { tally self.new ≡ after_write result (tally self.old) }
        ensures cause { HasCause (tally self.old).write_faults
            (tally self.new).write_faults result }
    {
        if !self.calls.next_fails() && self.files.clear(name) {
            return Ok(());
        }
        count_failure(&mut self.write_faults)
    }

    fn append(&mut self, name: &str, piece: &[u8]) -> Result<usize, Failed>
        ensures fails { IsErr result
            ↔ (FailsNext (calls_of self.old) ⊎ CannotAdd (mem_file self.old name.now) piece.now) }
        ensures count { IfOk result (λ n.
            n ≡ min (fitting_into (mem_file self.old name.now) piece.now)
            (calls_of self.old).most) }
        ensures some { IfOk result (λ n. 0 < length piece.now → 0 < n) }
        ensures added { IfOk result (λ n.
            mem_file self.new name.now ≡ grown (mem_file self.old name.now) n piece.now) }
        ensures kept { OnErr result (mem_file self.new name.now ≡ mem_file self.old name.now) }
        ensures others { SameElsewhere name.now (mem_file self.old) (mem_file self.new) }
        ensures counts { tally self.new ≡ after_write result (tally self.old) }
        ensures cause { HasCause (tally self.old).write_faults
            (tally self.new).write_faults result }
    {
        let most = self.calls.most().min(piece.len());
        if !self.calls.next_fails() {
            if let Some(count) = self.files.add(name, &piece[..most]) {
                return Ok(count);
            }
        }
        count_failure(&mut self.write_faults)
    }
}
