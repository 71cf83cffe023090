// The status and the lines for a script and a point.
ghost use Rattle.std.specs.Prelude.{IfOk, IsErrOf};
ghost use Rattle.fx_edge.specs.OnlyReads.{OnlyReads};
ghost use Rattle.script_grammar.specs.Spells.{View, Spells};
ghost use Rattle.point_eval.specs.Points.{AreRowsOf};
ghost use Rattle.at_command.specs.Told.{AtPrints, PointTells, RowsTell};

use crate::lines::{point_line, wide_line};
use command_runs::Status;
use fx_edge::Folder;
use point_eval::{Point, evaluate};
use point_text::{PointStop, read_point};
use point_values::EvalStop;
use rewrite_hints::marks_of;
use script_grammar::{Script, parse};
use script_texts::refused_line;
use std::alloc::{AllocError, Global};
use whole_texts::{ReadStop, read_text};

// How much of a point's text is read, in bytes: one more than a point may have.
const MOST: usize = (1 << 16) + 1;

// The status and the lines of a script at a point.
fn evaluated(
    alloc: Global,
    script: &Script<'_>,
    point: &Point,
) -> Result<(Status, Vec<u8>), AllocError>
    requires { AreRowsOf script.now.variables point.now.rows }
    ensures { IfOk result (λ r. RowsTell script.now point.now.rows r.0 r.1.items) }
{
    script.laws();
    let marks = marks_of(alloc, script.nodes(), script.hints().rewrites.as_slice())?;
    match evaluate(alloc, script, marks.as_slice(), point) {
        Ok(lines) => Ok((Status::Answered, lines)),
        Err(EvalStop::TooWide(place)) => Ok((Status::TooWide, wide_line(alloc, place)?)),
        Err(EvalStop::OutOfMemory) => Err(AllocError),
    }
}

// The status and the lines of a script and a point's text.
fn read_and_evaluated(
    alloc: Global,
    script: &Script<'_>,
    text: &[u8],
) -> Result<(Status, Vec<u8>), AllocError>
    ensures { IfOk result (λ r. PointTells script.now text.now r.0 r.1.items) }
{
    match read_point(alloc, script, text) {
        Ok(point) => evaluated(alloc, script, &point),
        Err(PointStop::Fault(fault)) => Ok((Status::Point, point_line(alloc, fault)?)),
        Err(PointStop::OutOfMemory) => Err(AllocError),
    }
}

// The status and the lines for a script and the point of this name.
fn script_at<F: Folder>(
    alloc: Global,
    script: &Script<'_>,
    name: &str,
    folder: &mut F,
) -> Result<(Status, Vec<u8>), ReadStop>
    ensures prints { IfOk result (λ r.
        AtPrints script.now.text (F.told folder.old name.now) r.0 r.1.items) }
    ensures only_reads { OnlyReads F.Folder folder.old folder.new (IsErrOf result ReadStop.Fault) }
{
    script.laws();
    let text = match read_text(alloc, folder, name, MOST) {
        Ok(text) => text,
        Err(stop) => return Err(stop),
    };
    match read_and_evaluated(alloc, script, &text) {
        Ok(answer) => Ok(answer),
        Err(AllocError) => Err(ReadStop::OutOfMemory),
    }
}

/// What is answered to a text and the point of this name: the status and all lines. The point is
/// read only where the text spells a script. `Fault` comes only where a read of it failed in this
/// call, `OutOfMemory` only where memory runs out.
pub fn at_answer<F: Folder>(
    alloc: Global,
    text: &[u8],
    name: &str,
    folder: &mut F,
) -> Result<(Status, Vec<u8>), ReadStop>
    ensures prints { IfOk result (λ r.
        AtPrints text.now (F.told folder.old name.now) r.0 r.1.items) }
    ensures script { IsErrOf result ReadStop.Fault → (s : View) × Spells text.now s }
    ensures only_reads { OnlyReads F.Folder folder.old folder.new (IsErrOf result ReadStop.Fault) }
{
    match parse(alloc, text) {
        Ok(script) => script_at(alloc, &script, name, folder),
        Err(stop) => Ok((Status::Script, refused_line(alloc, text, stop)?)),
    }
}
