ghost use Rattle.std.specs.Prelude.{ℕ};
ghost use Rattle.rule_universe.specs.Worlds.{World};
ghost use Rattle.box_tree.specs.Regions.{PlanParts};
ghost use Rattle.settler.specs.Frames.{no_world, no_plan};

use std::marker::Brand;

/// What boxes are settled in: a universe, how boxes are cut, and how many rounds settle one. One
/// type is one frame, so that boxes of two runs are never taken for each other's.
pub trait Frame {
    ghost universe: { World };

    ghost plan: { PlanParts };

    ghost rounds: { ℕ };
}

impl Frame for Brand {
    ghost universe = { no_world };

    ghost plan = { no_plan };

    ghost rounds = { 0 };
}
