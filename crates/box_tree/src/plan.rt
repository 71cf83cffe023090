// What cuts are made by.
ghost use Rattle.std.specs.Prelude.{◌≡◌, ◌≤◌, length};
ghost use Rattle.std.specs.List.{AllByRecursion};
ghost use Rattle.script_hints.specs.Few.{HaveFewPieces};
ghost use Rattle.script_claims.specs.Ranges.{IsOrdered};

use fx_edge::Items;
use fx_model::ExprId;
use script_claims::SplitRange;
use script_hints::hint::Split;
use std::marker::Model;

/// How boxes are cut.
#[derive(Drop)]
pub struct Plan {
    // The ranges of the split variables, and how many they are.
    pub(crate) entries: [SplitRange; 8],
    pub(crate) count: u8,
    pub(crate) cuts: Items<Split>,
    pub(crate) halves: Items<ExprId>,
    pub(crate) depth: u8,
}

impl Model for Plan {
    ghost use Rattle.std.specs.Prelude.{◌≡◌, ◌≤◌, length, take};
    ghost use Rattle.std.specs.List.{AllByRecursion};
    ghost use Rattle.script_hints.specs.Few.{HaveFewPieces};
    ghost use Rattle.script_claims.specs.Ranges.{IsOrdered};
    ghost use Rattle.box_tree.specs.Regions as seen;

    ghost Value = { seen.PlanParts };

    ghost view = { λ p. record {
      ranges = take p.count p.entries;
      cuts = p.cuts;
      halves = p.halves;
      depth = p.depth;
    } };

    ghost invariant = { λ p. (p.count ≤ 8) × AllByRecursion IsOrdered (take p.count p.entries)
        × (length p.cuts ≤ 4) × HaveFewPieces p.cuts × (p.depth ≤ 32) };
}

impl Plan {
    /// The unconditional cuts.
    pub(crate) fn cuts(&self) -> &[Split]
        ensures value { result.now ≡ self.now.cuts }
        ensures few { length result.now ≤ 4 }
        ensures pieces { HaveFewPieces result.now }
    {
        self.cuts.as_slice()
    }

    /// The variables that are halved in turn.
    pub(crate) fn halves(&self) -> &[ExprId]
        ensures { result.now ≡ self.now.halves }
    {
        self.halves.as_slice()
    }

    /// How often boxes are halved at most.
    pub(crate) fn depth(&self) -> u8
        ensures value { result ≡ self.now.depth }
        ensures few { result ≤ 32 }
    {
        self.depth
    }

    /// Nothing is done. The clause tells a caller that the ranges are in order.
    pub(crate) fn ordered(&self)
        ensures { AllByRecursion IsOrdered self.now.ranges }
    {
        let _ = &self.entries;
    }
}
