ghost use Rattle.std.specs.Prelude.{◌≡◌};
ghost use Rattle.derivation.specs.Known.{IsTableAt};
ghost use Rattle.saturate.specs.Tables.{fact_at};
ghost use Rattle.saturate.specs.Universes.{setting_of, HasAllPlaces};
ghost use Rattle.saturate.specs.Closed.{IsMarked};
ghost use Rattle.box_tree.specs.Plans.{cut_at, pieces_at};
ghost use Rattle.settler.specs.Decided.{state_at};

use crate::frame::Frame;
use bisect::Posted;
use fx_edge::Path;
use saturate::Table;
use std::marker::{Model, PhantomData};

/// The best table of a box. Contracts see the box's path.
#[derive(Drop)]
pub struct Entry<F: Frame> {
    path: Path,
    table: Table,
    of: PhantomData<F>,
}

impl<F: Frame> Model for Entry<F> {
    ghost use Rattle.std.specs.Prelude.{List, ℕ};
    ghost use Rattle.derivation.specs.Known.{IsTableAt};
    ghost use Rattle.saturate.specs.Tables.{fact_at};
    ghost use Rattle.saturate.specs.Universes.{setting_of, HasAllPlaces};
    ghost use Rattle.saturate.specs.Closed.{IsMarked};
    ghost use Rattle.box_tree.specs.Plans.{pieces_at};

    ghost Value = { List ℕ };

    ghost view = { λ e. e.path };

    ghost invariant = { λ e.
        IsTableAt (setting_of F.universe) F.rounds (pieces_at F.plan e.path) (fact_at e.table) ×
        HasAllPlaces F.universe e.table × IsMarked (setting_of F.universe) e.table };
}

impl<F: Frame> Entry<F> {
    // The entry of the box with this best table.
    pub(crate) fn new(path: Path, table: Table) -> Entry<F>
        requires right { IsTableAt (setting_of F.universe) F.rounds
            (pieces_at F.plan path) (fact_at table) }
        requires places { HasAllPlaces F.universe table }
        requires marked { IsMarked (setting_of F.universe) table }
        ensures { result ≡ path }
    {
        Entry {
            path,
            table,
            of: PhantomData,
        }
    }

    // The box's best table.
    pub(crate) fn table(&self) -> &Table
        ensures right { IsTableAt (setting_of F.universe) F.rounds
            (pieces_at F.plan self.now) (fact_at result.now) }
        ensures places { HasAllPlaces F.universe result.now }
        ensures marked { IsMarked (setting_of F.universe) result.now }
    {
        &self.table
    }
}

impl<F: Frame + Send + Sync> Posted for Entry<F> {
    ghost cut_at = { cut_at F.plan };

    ghost state_at = { state_at F.universe F.plan F.rounds };

    ghost path_of = { λ e. e };
}
