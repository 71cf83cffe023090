//! Entries that any thread publishes and reads.
ghost use Rattle.std.specs.Prelude.{◌≡◌, IfOk, MatchResult};

use crate::Token;
use std::alloc::{AllocError, Global};
use std::marker::Model;
use std::snapshot::Snapshot;
use std::sync::Wait;

/// Entries that any thread publishes and reads, for as long as the board stands. Contracts see
/// the board's name, a plain value that its tokens carry.
#[derive(Drop)]
pub struct Board<E: Drop> {
    entries: boxcar::Vec<E>,
}

impl<E: Drop> Model for Board<E> {
    ghost use Rattle.boxcar.specs.Table.{Shelves, shelves_coded};

    ghost Value = { Shelves };

    ghost coded = { shelves_coded };

    ghost view = { λ b. b.entries };
}

impl<E: Drop> Board<E> {
    /// A board with no entry. Lack of memory is the only error.
    pub fn new(alloc: Global) -> Result<Board<E>, AllocError> {
        Ok(Board {
            entries: boxcar::Vec::new(alloc)?,
        })
    }

    /// Publishes the entry. The only error is lack of memory, which hands it back. It may wait for
    /// another thread's publication.
    pub fn publish<R: Wait>(&self, rt: &R, entry: E) -> Result<Token<E>, E>
        ensures { MatchResult result
            (λ token. (token.board ≡ self.now) × (token.entry ≡ entry))
            (λ back. back ≡ entry) }
    {
        let board = Snapshot::of(&self.entries);
        let placed = self.entries.push_shown(rt, entry)?;
        Ok(Token { placed, board })
    }

    /// A second token of the same entry. It takes no memory and answers `Ok`.
    pub fn again(&self, token: &Token<E>) -> Result<Token<E>, AllocError>
        requires { token.now.board ≡ self.now }
        ensures { IfOk result (λ second. second ≡ token.now) }
    {
        Ok(Token {
            placed: token.placed.again(),
            board: Snapshot::of(&self.entries),
        })
    }

    /// Exactly the entry that was published for the token, at any later time and on any thread. It
    /// takes no memory.
    pub fn read<'a>(&'a self, token: &Token<E>) -> &'a E
        requires { token.now.board ≡ self.now }
        ensures { result.now ≡ token.now.entry }
    {
        self.entries.value(&token.placed)
    }
}
