// Bytes with room for so many, for which memory is found when they are made.
ghost use Rattle.std.specs.Prelude.{◌≡◌, ◌≤◌, ◌↔◌, length, min, IfOk, IfSome, IsNone};
ghost use Rattle.fx_edge.specs.Held.{new_held, fitting, IsFullFor, with_front, emptied, readable};
ghost use Rattle.fx_edge.specs.Held.{filled};

use std::alloc::AllocError;
use std::marker::Model;

/// Bytes, and room for so many.
#[derive(Drop)]
pub struct Buffer {
    bytes: Vec<u8>,
    room: usize,
}

impl Model for Buffer {
    ghost use Rattle.std.specs.Prelude.{◌≤◌, vec_len, vec_capacity};
    ghost use Rattle.fx_edge.specs.Held.{Held};

    ghost Value = { Held };

    ghost view = { λ b. record { bytes = b.bytes.items; room = b.room } };

    ghost invariant = { λ b. (b.room ≤ vec_capacity b.bytes) × (vec_len b.bytes ≤ b.room) };
}

impl Buffer {
    /// Room for `room` bytes, or for those that are there, if these are more.
    pub fn new(mut bytes: Vec<u8>, room: usize) -> Result<Buffer, AllocError>
        ensures { IfOk result (λ b. b ≡ new_held room bytes.items) }
    {
        let room = room.max(bytes.len());
        bytes.reserve(room - bytes.len())?;
        Ok(Buffer { bytes, room })
    }

    /// The bytes that are there, which are never more than the room.
    pub fn bytes(&self) -> &[u8]
        ensures bytes { result.now ≡ self.now.bytes }
        ensures within { length self.now.bytes ≤ self.now.room }
    {
        &self.bytes
    }

    /// Adds what fits of the piece, and says how much; `None` where nothing of a piece fits that
    /// isn't empty.
    pub fn add(&mut self, piece: &[u8]) -> Option<usize>
        ensures full { IsNone result ↔ IsFullFor self.old piece.now }
        ensures kept { IsNone result → self.new ≡ self.old }
        ensures count { IfSome result (λ n. n ≡ fitting self.old piece.now) }
        ensures added { IfSome result (λ n. self.new ≡ with_front self.old n piece.now) }
    {
        let count = piece.len().min(self.room - self.bytes.len());
        if count == 0 && !piece.is_empty() {
            return None;
        }
        if self.bytes.extend_from_slice(&piece[..count]).is_err() {
            unreachable!();
        }
        Some(count)
    }

    /// Takes out all bytes; the room stays.
    pub fn clear(&mut self)
        ensures { self.new ≡ emptied self.old }
    {
        self.bytes.clear();
    }

    /// Copies the bytes that stand from `at` into the buffer, as many as there are and fit, at
    /// most `most`.
    pub fn copy_from(&self, at: u64, buf: &mut [u8], most: usize) -> usize
        ensures count { result ≡ min (readable self.now.bytes at (length buf.old)) most }
        ensures bytes { buf.new ≡ filled self.now.bytes at result buf.old }
    {
        let start = if at < self.bytes.len() as u64 {
            at as usize
        } else {
            self.bytes.len()
        };
        let count = (self.bytes.len() - start).min(buf.len()).min(most);
        buf[..count].copy_from_slice(&self.bytes[start..start + count]);
        count
    }
}
