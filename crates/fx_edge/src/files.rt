// Files in memory, by name. A name that is to be written stands among them from the start, so that
// no call takes memory.
ghost use Rattle.std.specs.Prelude.{◌≡◌, ◌↔◌, ℕ, List, Some, length, min, IsNone, IsSome, IsTrue};
ghost use Rattle.std.specs.Prelude.{IfOk, IfSome};
ghost use Rattle.std.specs.Option.{option_map};
ghost use Rattle.fx_edge.specs.Held.{emptied, readable, filled};
ghost use Rattle.fx_edge.specs.Files.{file_at, last_file, bytes_there, bytes_or_none, fitting_into};
ghost use Rattle.fx_edge.specs.Files.{CannotAdd, grown, SameElsewhere};

use crate::buffer::Buffer;
use std::alloc::{AllocError, Global};
use std::collections::BTreeMap;

/// Files by name.
#[derive(Drop)]
pub struct Files {
    by_name: BTreeMap<String, Buffer>,
}

impl Files {
    /// These files, each with room for `room` bytes, or for its own, if these are more. Of two with
    /// one name, the last counts.
    pub fn new(
        alloc: Global,
        files: Vec<(String, Vec<u8>)>,
        room: usize,
    ) -> Result<Files, AllocError>
        ensures { IfOk result (λ made.
            (name : List ℕ) → file_at made name ≡ last_file room files.items name) }
    {
        let mut by_name = BTreeMap::new(alloc);
        for (name, bytes) in files {
            by_name.insert(name, Buffer::new(bytes, room)?)?;
        }
        Ok(Files { by_name })
    }

    /// The bytes of a name, where it is there.
    pub fn bytes(&self, name: &str) -> Option<&[u8]>
        ensures absent { IsNone result ↔ IsNone (file_at self.now name.now) }
        ensures bytes { IfSome result (λ b. bytes_there (file_at self.now name.now) ≡ Some b.now) }
    {
        match self.by_name.get(name) {
            Some(file) => Some(file.bytes()),
            None => None,
        }
    }

    /// Copies the bytes that stand from `at`, at most `most`; `None` where the name isn't there.
    pub fn read(&self, name: &str, at: u64, buf: &mut [u8], most: usize) -> Option<usize>
        ensures absent { IsNone result ↔ IsNone (file_at self.now name.now) }
        ensures count { IfSome result (λ n.
            n ≡ min (readable (bytes_or_none (file_at self.now name.now)) at
            (length buf.old)) most) }
        ensures bytes { IfSome result (λ n.
            buf.new ≡ filled (bytes_or_none (file_at self.now name.now)) at n buf.old) }
        ensures kept { IsNone result → buf.new ≡ buf.old }
    {
        match self.by_name.get(name) {
            Some(file) => Some(file.copy_from(at, buf, most)),
            None => None,
        }
    }

    /// Leaves a name with no bytes, and says whether it is there.
    #[tactic(auto, using(std::proofs::lemmas::Map::Text::text_keys))]
    pub fn clear(&mut self, name: &str) -> bool
        ensures there { IsTrue result ↔ IsSome (file_at self.old name.now) }
        ensures cleared { file_at self.new name.now
            ≡ option_map emptied (file_at self.old name.now) }
        ensures others { SameElsewhere name.now (file_at self.old) (file_at self.new) }
    {
        if let Some(file) = self.by_name.get_mut(name) {
            file.clear();
            return true;
        }
        false
    }

    /// Adds what fits of the piece; `None` where the name isn't there, or nothing of a piece fits
    /// that isn't empty.
    #[tactic(auto, using(std::proofs::lemmas::Map::Text::text_keys))]
    pub fn add(&mut self, name: &str, piece: &[u8]) -> Option<usize>
        ensures refused { IsNone result ↔ CannotAdd (file_at self.old name.now) piece.now }
        ensures kept { IsNone result → file_at self.new name.now ≡ file_at self.old name.now }
        ensures count { IfSome result
            (λ n. n ≡ fitting_into (file_at self.old name.now) piece.now) }
        ensures added { IfSome result (λ n.
            file_at self.new name.now ≡ grown (file_at self.old name.now) n piece.now) }
        ensures others { SameElsewhere name.now (file_at self.old) (file_at self.new) }
    {
        match self.by_name.get_mut(name) {
            Some(file) => file.add(piece),
            None => None,
        }
    }
}
