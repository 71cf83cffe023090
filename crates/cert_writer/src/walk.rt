//! The walk over a script's boxes that writes their sections.
ghost use Rattle.std.specs.Prelude.{◌≡◌, ◌<◌, ◌≤◌, length, IfOk, IsErrOf, OnErr};
ghost use Rattle.box_trace.specs.Tables.{HasRows};
ghost use Rattle.answer_certificates.specs.Scripts.{HasSlots};
ghost use Rattle.whole_texts.specs.OnlyWrites.{OnlyWrites};
ghost use Rattle.cert_writer.specs.Courses.{GrewToFront, IsSomewhere, OnCourses, IsPast, HasDone};
ghost use Rattle.cert_writer.specs.Courses.{AreOwnBytes};
ghost use Rattle.cert_writer.specs.Walks.{MayEnd, IsLast};
ghost use Rattle.cert_writer.specs.declared.walk.WriteStop.TheVariants as WriteStop;

use crate::ending::{cut_of, end_of};
use crate::laws::{walk_goes_on, writing_goes_on};
use crate::spell::{own_items, spell_box, written_items};
use box_trace::{Known, Traced, boxes_are_short, trace};
use box_tree::{Cut, Plan};
use cert_bytes::{CutPoints, Item, Seen};
use cert_trim::leaves_are_trimmed;
use fx_edge::{Failed, Folder, Path};
use rule_universe::Universe;
use std::alloc::{AllocError, Global};
use whole_texts::append_all;

/// Why a certificate wasn't written whole.
#[derive(Clone, Copy, PartialEq, Eq, Debug)]
pub enum WriteStop {
    /// A write of the folder failed.
    Failed,
    /// No memory was found.
    OutOfMemory,
}

impl From<Failed> for WriteStop {
    ghost from_gives = { λ _ e. e ≡ WriteStop.Failed };

    fn from(_: Failed) -> Self {
        WriteStop::Failed
    }
}

impl From<AllocError> for WriteStop {
    ghost from_gives = { λ _ e. e ≡ WriteStop.OutOfMemory };

    fn from(_: AllocError) -> Self {
        WriteStop::OutOfMemory
    }
}

// The last of a box's own items, and into how many pieces it is cut.
fn last_item(
    alloc: Global,
    uni: &Universe,
    cut: Cut,
    known: &Known,
) -> Result<(Item, u8), AllocError>
    requires slots { HasSlots uni.now uni.now.goals }
    requires rows { HasRows uni.now known.now }
    requires ends { MayEnd uni.now known.now cut }
    ensures { IfOk result (λ r. IsLast uni.now known.now cut r.0 r.1) }
{
    if let Some((x, points)) = cut_of(uni, cut, known) {
        let pieces = points.len() + 1;
        return Ok((Item::Cut(x, CutPoints::new(alloc, points)?), pieces));
    }
    Ok((end_of(alloc, uni, known)?, 0))
}

/// The boxes of a case, to be settled again: over this universe, cut by this plan, in so many
/// rounds.
#[derive(Drop)]
pub(crate) struct Boxes<'a> {
    pub(crate) alloc: Global,
    pub(crate) universe: &'a Universe,
    pub(crate) plan: &'a Plan,
    pub(crate) rounds: u8,
}

// What a box's pieces need behind its own items: what is known there, how many pieces there are,
// and what was seen.
#[derive(Drop)]
struct Own {
    known: Known,
    pieces: u8,
    next: Seen,
}

// The bytes of the box's own items that are written.
fn own_bytes(
    boxes: &Boxes<'_>,
    path: &Path,
    parent: Option<&Known>,
    seen: Seen,
) -> Result<(Vec<u8>, Own), AllocError>
    requires somewhere { IsSomewhere
        boxes.now.universe.now boxes.now.plan.now boxes.now.rounds path.now parent seen }
    ensures own { IfOk result (λ r. OnCourses
        boxes.now.universe.now boxes.now.plan.now boxes.now.rounds path.now parent.entry seen
        (λ c p. AreOwnBytes c path.now p r.1.known r.1.pieces r.1.next r.0.items)) }
    ensures room { IfOk result (λ r. 0 < r.1.pieces → length path.now < 36) }
    ensures pieces { IfOk result (λ r. r.1.pieces ≤ 64) }
{
    walk_goes_on(boxes.plan);
    boxes_are_short();
    leaves_are_trimmed();
    let (piece, cut) = boxes.plan.at(path);
    let alloc = boxes.alloc;
    let uni = boxes.universe;
    let Traced { steps, known } = trace(alloc, uni, piece, parent, boxes.rounds, seen.steps)?;
    let (last, pieces) = last_item(alloc, uni, cut, &known)?;
    let own = own_items(alloc, steps, last)?;
    let items = written_items(alloc, own, pieces, seen.steps)?;
    let (bytes, next) = spell_box(alloc, items.as_slice(), seen)?;
    Ok((
        bytes,
        Own {
            known,
            pieces,
            next,
        },
    ))
}

// Writes the box's own items.
fn write_own<F: Folder>(
    boxes: &Boxes<'_>,
    folder: &mut F,
    name: &str,
    path: &Path,
    parent: Option<&Known>,
    seen: Seen,
) -> Result<Own, WriteStop>
    requires somewhere { IsSomewhere
        boxes.now.universe.now boxes.now.plan.now boxes.now.rounds path.now parent seen }
    ensures ok { IfOk result (λ own. OnCourses
        boxes.now.universe.now boxes.now.plan.now boxes.now.rounds path.now parent.entry seen
        (λ c p. HasDone c path.now own.known p (F.told folder.old name.now) own.pieces 0 own.next
        (F.told folder.new name.now))) }
    ensures room { IfOk result (λ own. 0 < own.pieces → length path.now < 36) }
    ensures pieces { IfOk result (λ own. own.pieces ≤ 64) }
    ensures err { OnErr result (OnCourses
        boxes.now.universe.now boxes.now.plan.now boxes.now.rounds path.now parent.entry seen
        (λ c p. GrewToFront c.aim p.items (F.told folder.old name.now)
        (F.told folder.new name.now))) }
    ensures only_writes { OnlyWrites F.Folder name.now folder.old folder.new
        (IsErrOf result WriteStop.Failed) }
{
    writing_goes_on();
    let (bytes, own) = own_bytes(boxes, path, parent, seen)?;
    append_all(folder, name, &bytes)?;
    Ok(own)
}

// Writes the section of the box at the path and of those below it, where this was seen before it.
// It answers what was seen behind it.
pub(crate) fn write_box<F: Folder>(
    boxes: &Boxes<'_>,
    folder: &mut F,
    name: &str,
    path: Path,
    parent: Option<&Known>,
    seen: Seen,
) -> Result<Seen, WriteStop>
    requires somewhere { IsSomewhere
        boxes.now.universe.now boxes.now.plan.now boxes.now.rounds path parent seen }
    ensures ok { IfOk result (λ next. OnCourses
        boxes.now.universe.now boxes.now.plan.now boxes.now.rounds path parent.entry seen
        (λ c p. IsPast c p (F.told folder.old name.now) next (F.told folder.new name.now))) }
    ensures err { OnErr result (OnCourses
        boxes.now.universe.now boxes.now.plan.now boxes.now.rounds path parent.entry seen
        (λ c p. GrewToFront c.aim p.items (F.told folder.old name.now)
        (F.told folder.new name.now))) }
    ensures only_writes { OnlyWrites F.Folder name.now folder.old folder.new
        (IsErrOf result WriteStop.Failed) }
{
    walk_goes_on(boxes.plan);
    let own = write_own(boxes, folder, name, &path, parent, seen)?;
    let mut next = own.next;
    for i in 0..own.pieces {
        next = write_box(boxes, folder, name, path.child(i), Some(&own.known), next)?;
    }
    Ok(next)
}
