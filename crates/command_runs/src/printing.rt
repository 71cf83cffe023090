// What a run puts into its sink.
ghost use Rattle.std.specs.Prelude.{◌≡◌, IfOk};
ghost use Rattle.command_runs.specs.Ends.{IsPut, IsStopPut};
ghost use Rattle.command_runs.specs.Statuses as spec;

use crate::status::Status;
use fx_edge::{Failed, Sink};
use std::alloc::{AllocError, Global};
use whole_texts::{ReadStop, put_all};

/// Puts the lines, and answers the status where the sink took all of them. `WriteFault` where a put
/// failed.
pub fn print<O: Sink>(out: &mut O, lines: &[u8], status: Status) -> Status
    ensures { IsPut status lines.now
        (O.taken out.old) (O.taken out.new) (O.faults out.old) (O.faults out.new) result }
{
    match put_all(out, lines) {
        Ok(()) => status,
        Err(Failed) => Status::WriteFault,
    }
}

/// The line of a file that wasn't read whole, by its name. `Err` only where memory runs out.
pub fn read_fault_line(alloc: Global, name: &str) -> Result<Vec<u8>, AllocError>
    ensures { IfOk result (λ line. line.items ≡ spec.read_fault_line name.now) }
{
    let line = format!(in alloc; "read fault: {name}\n")?;
    Ok(line.into_bytes())
}

fn print_read_fault<O: Sink>(alloc: Global, name: &str, out: &mut O) -> Status
    ensures { IsStopPut ReadStop.Fault name.now
        (O.taken out.old) (O.taken out.new) (O.faults out.old) (O.faults out.new) result }
{
    match read_fault_line(alloc, name) {
        Ok(line) => print(out, &line, Status::ReadFault),
        Err(_) => Status::OutOfMemory,
    }
}

/// Puts why the file of this name wasn't read: the line of a read fault; nothing for lack of
/// memory.
pub fn print_stop<O: Sink>(alloc: Global, name: &str, stop: ReadStop, out: &mut O) -> Status
    ensures { IsStopPut stop name.now
        (O.taken out.old) (O.taken out.new) (O.faults out.old) (O.faults out.new) result }
{
    match stop {
        ReadStop::Fault => print_read_fault(alloc, name, out),
        ReadStop::OutOfMemory => Status::OutOfMemory,
    }
}
