// The printed lines.
ghost use Rattle.std.specs.Prelude.{◌≡◌, IfOk};
ghost use Rattle.at_command.specs.Lines as spec;

use point_text::{PointFault, PointKind};
use point_values::Place;
use std::alloc::{AllocError, Global};

// The kind's name.
fn kind_text(kind: PointKind) -> &'static str
    ensures { result.now ≡ spec.kind_text kind }
{
    match kind {
        PointKind::NotText => "NotText",
        PointKind::BadToken => "BadToken",
        PointKind::Unexpected => "Unexpected",
        PointKind::Unknown => "Unknown",
        PointKind::Twice => "Twice",
        PointKind::ZeroDivisor => "ZeroDivisor",
        PointKind::LiteralLimit => "LiteralLimit",
        PointKind::Limit => "Limit",
        PointKind::Missing => "Missing",
    }
}

/// The line of a text that is no point: why, and at which byte, counted from 0. `Err` only where
/// memory runs out.
pub fn point_line(alloc: Global, fault: PointFault) -> Result<Vec<u8>, AllocError>
    ensures { IfOk result (λ line. line.items ≡ spec.point_line fault) }
{
    let kind = kind_text(fault.kind);
    let at = fault.at;
    let line = format!(in alloc; "point: {kind} at {at}\n")?;
    Ok(line.into_bytes())
}

// The line of one of these, with its number.
fn numbered(alloc: Global, sort: &str, number: u128) -> Result<Vec<u8>, AllocError>
    ensures { IfOk result (λ line. line.items ≡ spec.numbered sort.now number) }
{
    let line = format!(in alloc; "too wide: {sort} {number}\n")?;
    Ok(line.into_bytes())
}

/// The line of a place with a number that isn't below 2^127: nodes print from 0, all else from 1.
/// `Err` only where memory runs out.
pub fn wide_line(alloc: Global, place: Place) -> Result<Vec<u8>, AllocError>
    ensures { IfOk result (λ line. line.items ≡ spec.wide_line place) }
{
    match place {
        Place::Entry(k) => numbered(alloc, "entry", k as u128 + 1),
        Place::Node(k) => numbered(alloc, "node", k as u128),
        Place::Hypothesis(k) => numbered(alloc, "hypothesis", k as u128 + 1),
        Place::Goal(k) => numbered(alloc, "goal", k as u128 + 1),
        Place::Hint(k) => numbered(alloc, "hint", k as u128 + 1),
    }
}
