//! The table of a box.
ghost use Rattle.std.specs.Prelude.{◌≡◌, ◌<◌, IfOk, List, length};
ghost use Rattle.derivation.specs.Known.{Piece, IsTableAt};
ghost use Rattle.saturate.specs.Tables.{fact_at};
ghost use Rattle.saturate.specs.Universes.{setting_by, setting_of, HasAllPlaces};
ghost use Rattle.saturate.specs.Closed.{IsMarked, IsMarkedParent};
ghost use Rattle.saturate.specs.Boxes.{IsSomeBox, IsOfUniverse, IsTableBelow, IsCostBelow};
ghost use Rattle.saturate.specs.Boxes.{IsSomeBoxIn, IsItsTableIn, IsItsStateIn, IsItsCostIn};
ghost use Rattle.saturate.specs.Boxes.{IsItsTable, IsItsState, table_of, state_of};

use crate::area::Area;
use crate::change::Change;
use crate::conclusions::Concludes;
use crate::improve::improve;
use crate::judge::judge;
use crate::kept::Table;
use crate::root::settle_root;
use crate::rounds::{rounds, rounds_from};
use crate::settled::Settled;
use crate::steps::Steps;
use derivation::boxes_come_to_one_state;
use facts::Fact;
use fx_model::ExprId;
use interval::Interval;
use rule_universe::Universe;
use std::alloc::AllocError;
use std::marker::Brand;
use std::sync::ledger::{Blank, Ledger};

// The best table of a box below another, from the piece that the last cut left of a variable.
fn settle_child<C: Concludes>(
    uni: &Universe,
    piece: (ExprId, Interval),
    parent: &Table,
    height: u8,
    area: &mut Area,
    steps: &mut C,
) -> Result<Table, AllocError>
    requires variable { (piece.0).0 < length uni.now.nodes }
    requires places { HasAllPlaces uni.now parent.now }
    requires parent { (above : List Piece) ×
        IsTableAt (setting_by C.rules uni.now) height above (fact_at parent.now) }
    requires marked { IsMarked (setting_by C.rules uni.now) parent.now }
    ensures table { IfOk result (λ t.
        IsTableBelow (setting_by C.rules uni.now) height (piece.0, piece.1) parent.now t) }
    ensures places { IfOk result (HasAllPlaces uni.now) }
    ensures marked { IfOk result (IsMarked (setting_by C.rules uni.now)) }
    ensures cost { IsCostBelow (setting_by C.rules uni.now) height (piece.0, piece.1) parent.now
        (C.asked steps.old) (C.asked steps.new) }
{
    uni.laws();
    C::rules_are_lawful();
    let mut start = parent.copy(area.alloc)?;
    let place = (piece.0).0;
    let changed = improve(&mut start, Fact::Bnd(piece.0, piece.1), place);
    if parent.closed {
        let change = Change {
            slot: changed,
            place,
            height,
        };
        rounds_from(uni, start, change, area, steps)
    } else {
        rounds(uni, start, height, area, steps)
    }
}

// The best table of a box.
fn best_table<C: Concludes>(
    uni: &Universe,
    piece: Option<(ExprId, Interval)>,
    parent: Option<&Table>,
    height: u8,
    area: &mut Area,
    steps: &mut C,
) -> Result<Table, AllocError>
    requires given { IsSomeBoxIn (setting_by C.rules uni.now) height piece parent }
    requires places { IsOfUniverse uni.now piece parent }
    requires marked { IsMarkedParent (setting_by C.rules uni.now) parent }
    ensures table { IfOk result
        (IsItsTableIn (setting_by C.rules uni.now) height piece parent.entry) }
    ensures places { IfOk result (HasAllPlaces uni.now) }
    ensures marked { IfOk result (IsMarked (setting_by C.rules uni.now)) }
    ensures cost { IsItsCostIn (setting_by C.rules uni.now) height piece parent.entry
        (C.asked steps.old) (C.asked steps.new) }
{
    match (piece, parent) {
        (Some(piece), Some(parent)) => settle_child(uni, piece, parent, height, area, steps),
        _ => settle_root(uni, height, area, steps),
    }
}

/// What a box comes to, and its best table. At the root nothing is given; at any other box the
/// piece that the last cut left and the best table of the parent, for this universe and so many
/// rounds. The area may come from any other box, of any universe.
///
/// A step is a conclusion that was asked for. The call has no other, and `Steps` asks `conclude`.
pub fn settle_counted<C: Concludes>(
    uni: &Universe,
    piece: Option<(ExprId, Interval)>,
    parent: Option<&Table>,
    rounds: u8,
    area: &mut Area,
    steps: &mut C,
) -> Result<Settled, AllocError>
    requires given { IsSomeBoxIn (setting_by C.rules uni.now) rounds piece parent }
    requires places { IsOfUniverse uni.now piece parent }
    // Where the parent's table says that it is closed, it is: its own call ensured so.
    requires marked { IsMarkedParent (setting_by C.rules uni.now) parent }
    // The table has the best facts that are known at the box.
    ensures table { IfOk result (λ settled.
        IsItsTableIn (setting_by C.rules uni.now) rounds piece parent.entry (table_of settled)) }
    // Void comes exactly where VOID is known, and Open exactly where the box isn't settled, with
    // the least goal that isn't settled.
    ensures state { IfOk result (λ settled.
        IsItsStateIn (setting_by C.rules uni.now) uni.now.goals rounds piece parent.entry
        (state_of settled)) }
    ensures places { IfOk result (λ settled. HasAllPlaces uni.now (table_of settled)) }
    ensures marked { IfOk result (λ settled.
        IsMarked (setting_by C.rules uni.now) (table_of settled)) }
    // Each instance is applied at most once, and from the second round on only where a premise's
    // best fact changed in the round before. No more where memory runs out.
    ensures cost { IsItsCostIn (setting_by C.rules uni.now) rounds piece parent.entry
        (C.asked steps.old) (C.asked steps.new) }
{
    uni.laws();
    boxes_come_to_one_state();
    let table = best_table(uni, piece, parent, rounds, area, steps)?;
    Ok(judge(table, uni.goals()))
}

// The same with a counter of its own.
fn settle_blank<L: Ledger>(
    uni: &Universe,
    piece: Option<(ExprId, Interval)>,
    parent: Option<&Table>,
    rounds: u8,
    area: &mut Area,
    blank: Blank,
) -> Result<Settled, AllocError>
    requires blank { (blank.name ≡ L.name) × (blank.parts ≡ L.parts) × (0 < blank.parts) }
    requires given { IsSomeBox uni.now rounds piece parent }
    requires places { IsOfUniverse uni.now piece parent }
    requires marked { IsMarkedParent (setting_of uni.now) parent }
    ensures table { IfOk result
        (λ settled. IsItsTable uni.now rounds piece parent.entry (table_of settled)) }
    ensures state { IfOk result
        (λ settled. IsItsState uni.now rounds piece parent.entry (state_of settled)) }
    ensures places { IfOk result (λ settled. HasAllPlaces uni.now (table_of settled)) }
    ensures marked { IfOk result (λ settled. IsMarked (setting_of uni.now) (table_of settled)) }
{
    let mut steps = Steps::<L>::new(blank);
    settle_counted(uni, piece, parent, rounds, area, &mut steps)
}

/// The same, where nobody counts.
pub fn settle(
    uni: &Universe,
    piece: Option<(ExprId, Interval)>,
    parent: Option<&Table>,
    rounds: u8,
    area: &mut Area,
) -> Result<Settled, AllocError>
    requires given { IsSomeBox uni.now rounds piece parent }
    requires places { IsOfUniverse uni.now piece parent }
    requires marked { IsMarkedParent (setting_of uni.now) parent }
    ensures table { IfOk result
        (λ settled. IsItsTable uni.now rounds piece parent.entry (table_of settled)) }
    ensures state { IfOk result
        (λ settled. IsItsState uni.now rounds piece parent.entry (state_of settled)) }
    ensures places { IfOk result (λ settled. HasAllPlaces uni.now (table_of settled)) }
    ensures marked { IfOk result (λ settled. IsMarked (setting_of uni.now) (table_of settled)) }
{
    settle_blank::<Brand>(uni, piece, parent, rounds, area, Blank::new(1))
}
