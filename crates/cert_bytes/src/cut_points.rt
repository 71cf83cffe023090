//! The points of a cut, behind a pointer.
ghost use Rattle.std.specs.Prelude.{◌≡◌, IfOk};

use dyadic::Points;
use std::alloc::{AllocError, Global};
use std::marker::Model;

/// The points of a cut, apart from the item that has them: they take far more room than any other
/// item. In contracts they are their list.
#[derive(Debug, Drop)]
pub struct CutPoints {
    points: Box<Points>,
}

impl Model for CutPoints {
    ghost use Rattle.std.specs.Prelude.{List};
    ghost use Rattle.dyadic.specs.declared.number.Dyadic.{Dyadic};

    ghost Value = { List Dyadic };

    ghost view = { λ cut. cut.points.value };
}

impl CutPoints {
    /// These points. It takes memory for them: `Err` only where memory runs out.
    pub fn new(alloc: Global, points: Points) -> Result<CutPoints, AllocError>
        ensures { IfOk result (λ cut. cut ≡ points) }
    {
        Ok(CutPoints {
            points: Box::new(alloc, points)?,
        })
    }

    /// The points.
    pub fn points(&self) -> &Points
        ensures { result.now ≡ self.now }
    {
        &self.points
    }
}
