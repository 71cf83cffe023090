//! A box that waits, with the token of its parent's entry.
ghost use Rattle.std.specs.Prelude.{◌≡◌, ◌<◌, [], ◌∷◌, ◌++◌, length, Some, None};
ghost use Rattle.box_tree.specs.Paths.{IsPathOf};
ghost use Rattle.box_tree.specs.Pieces.{piece_count};

use bisect::Posted;
use box_deques::Task;
use fact_board::{Board, Token};
use fx_edge::Path;
use std::marker::Model;

/// A box that waits. Its type keeps that its path is one of the plan, and that its token's entry is
/// that of its parent.
#[derive(Drop)]
pub struct BoxTask<E: Posted> {
    pub(crate) path: Path,
    pub(crate) parent: Option<Token<E>>,
}

impl<E: Posted> Model for BoxTask<E> {
    ghost use Rattle.std.specs.Prelude.{◌≡◌, [], MatchOption};
    ghost use Rattle.box_workers.specs.Seen as seen;
    ghost use Rattle.box_tree.specs.Paths.{IsPathOf, IsChild};
    ghost use Rattle.box_tree.specs.Pieces.{piece_count};

    ghost Value = { seen.BoxTask E };

    ghost coded = { seen.task_coded E.code };

    ghost view = { λ t. record { path = t.path; parent = t.parent } };

    ghost invariant = { λ t. IsPathOf (λ p. piece_count (E.cut_at p)) t.path
        × MatchOption t.parent (t.path ≡ []) (λ s. IsChild (E.path_of s.entry) t.path) };
}

impl<E: Posted> Task for BoxTask<E> {
    ghost use Rattle.box_workers.specs.Seen as seen;

    type World = Board<E>;

    ghost path_of = { λ t. t.path };

    ghost world = { λ t. seen.board_of t.parent };

    fn path(&self) -> Path {
        self.path
    }
}

impl<E: Posted> BoxTask<E> {
    /// The task of the whole box.
    pub fn root() -> BoxTask<E>
        ensures { result ≡ record { path = []; parent = None } }
    {
        BoxTask {
            path: Path::root(),
            parent: None,
        }
    }

    // The task of a piece, from the token of the box that was cut.
    pub(crate) fn piece(path: Path, piece: u8, token: Token<E>) -> BoxTask<E>
        requires path { IsPathOf (λ p. piece_count (E.cut_at p)) path }
        requires room { length path < 36 }
        requires piece { (piece < 64) × (piece < piece_count (E.cut_at path)) }
        requires parent { E.path_of token.entry ≡ path }
        ensures { result ≡ record { path = path ++ piece ∷ []; parent = Some token } }
    {
        BoxTask {
            path: path.child(piece),
            parent: Some(token),
        }
    }

    // Where the box lies.
    pub(crate) fn place(&self) -> Path
        ensures path { result ≡ self.now.path }
        ensures plan { IsPathOf (λ p. piece_count (E.cut_at p)) self.now.path }
    {
        self.path
    }
}
