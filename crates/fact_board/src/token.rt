//! What shows that an entry stands on a board.
use std::marker::Model;
use std::snapshot::Snapshot;

/// Shows that an entry stands on a board. Contracts see the board's name and the entry.
#[derive(Drop)]
pub struct Token<E: Drop> {
    pub(crate) placed: boxcar::Pushed<E>,
    pub(crate) board: Snapshot<boxcar::Vec<E>>,
}

impl<E: Drop> Model for Token<E> {
    ghost use Rattle.boxcar.specs.Table.{Shows};
    ghost use Rattle.fact_board.specs.Sees.{Sees, sees_coded};

    ghost Value = { Sees E };

    ghost coded = { sees_coded E.code };

    ghost view = { λ t. record { board = t.board.value; entry = t.placed.value } };

    ghost invariant = { λ t. Shows t.board.value t.placed };
}
