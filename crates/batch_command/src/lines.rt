// The printed lines.
ghost use Rattle.std.specs.Prelude.{◌≡◌, ◌++◌, IfOk, length, map, string_bytes};
ghost use Rattle.batch_command.specs.Lines as spec;
ghost use Rattle.batch_command.specs.Command as command;
ghost use Rattle.batch_command.specs.Told.{lines_under, status_of};

use command_runs::Status;
use name_list::{ListFault, ListKind};
use std::alloc::{AllocError, Global};

// The kind's name.
fn kind_text(kind: ListKind) -> &'static str
    ensures { result.now ≡ spec.kind_text kind }
{
    match kind {
        ListKind::NotText => "NotText",
        ListKind::EmptyName => "EmptyName",
        ListKind::Limit => "Limit",
    }
}

/// The line of a text that is no list: why, and at which byte, counted from 0. `Err` only where
/// memory runs out.
pub fn list_fault_line(alloc: Global, fault: ListFault) -> Result<Vec<u8>, AllocError>
    ensures { IfOk result (λ line. line.items ≡ spec.list_fault_line fault) }
{
    let kind = kind_text(fault.kind);
    let at = fault.at;
    let line = format!(in alloc; "list: {kind} at {at}\n")?;
    Ok(line.into_bytes())
}

// The line above what is printed of a script.
fn script_line(alloc: Global, name: &str) -> Result<Vec<u8>, AllocError>
    ensures { IfOk result (λ line. line.items ≡ spec.script_line name.now) }
{
    let line = format!(in alloc; "script {name}\n")?;
    Ok(line.into_bytes())
}

// The first status of the two that isn't that of an answer.
fn first_other(status: Status, later: Status) -> Status
    ensures { result ≡ command.first_other status later }
{
    match status {
        Status::Answered => later,
        other => other,
    }
}

// Adds the lines of the answers under their names, and answers their status.
fn add_lines(
    alloc: Global,
    lines: &mut Vec<u8>,
    names: &[String],
    answers: &[(Status, Vec<u8>)],
) -> Result<Status, AllocError>
    requires many { length names.now ≡ length answers.now }
    ensures status { IfOk result (λ s. s ≡ status_of answers.now) }
    ensures lines { IfOk result (λ _.
        lines.new.items ≡ lines.old.items ++ lines_under (map string_bytes names.now) answers.now) }
{
    match answers {
        [] => Ok(Status::Answered),
        [(status, text), answers_behind @ ..] => {
            let [name, names_behind @ ..] = names else {
                unreachable!()
            };
            lines.extend_from_slice(&script_line(alloc, name)?)?;
            lines.extend_from_slice(text)?;
            let later = add_lines(alloc, lines, names_behind, answers_behind)?;
            Ok(first_other(*status, later))
        }
    }
}

/// The status of the answers, and their lines, under their names. `Err` only where memory runs out.
pub fn print_answers(
    alloc: Global,
    names: &[String],
    answers: &[(Status, Vec<u8>)],
) -> Result<(Status, Vec<u8>), AllocError>
    requires many { length names.now ≡ length answers.now }
    ensures status { IfOk result (λ r. r.0 ≡ status_of answers.now) }
    ensures lines { IfOk result (λ r.
        r.1.items ≡ lines_under (map string_bytes names.now) answers.now) }
{
    let mut lines = Vec::new(alloc);
    let status = add_lines(alloc, &mut lines, names, answers)?;
    Ok((status, lines))
}
