// The plan of a proof as the account reads it.
ghost use Rattle.box_tree.specs.Pieces.{piece_count};
ghost use Rattle.box_tree.specs.Plans.{cut_at};

use crate::cuts::Cuts;
use box_tree::Plan;
use fx_edge::Path;

impl Cuts for Plan {
    ghost pieces_of = { λ plan path. piece_count (cut_at plan path) };

    fn pieces(&self, path: &Path) -> u8 {
        self.cut(path).pieces()
    }
}
