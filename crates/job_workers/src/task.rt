//! A job that waits.
ghost use Rattle.std.specs.Prelude.{◌<◌};

use box_deques::Task;
use fx_edge::Path;

/// A job that waits: its number, which is the one piece of its path.
#[derive(Drop)]
pub struct JobTask {
    pub(crate) number: u8,
    ghost few: { number < 64 },
}

impl Task for JobTask {
    ghost use Rattle.std.specs.Prelude.{[], ◌∷◌, None};

    type World = u8;

    ghost path_of = { λ t. t.number ∷ [] };

    ghost world = { λ t. None };

    fn path(&self) -> Path {
        Path::root().child(self.number)
    }
}
