// A run of `upgrade`.
ghost use Rattle.std.specs.Prelude.{◌≢◌};
ghost use Rattle.command_line.specs.Upgrade.{upgrade_of};
ghost use Rattle.command_runs.specs.Ends.{IsLinePut};
ghost use Rattle.command_runs.specs.Runs.{seen, run};
ghost use Rattle.report.specs.Certificates.{cert_fault_line, upgraded_line};
ghost use Rattle.upgrade_command.specs.Command.{IsUpgradeRun};

use cert_bytes::{CertFault, Seen};
use cert_upgrade::{UpgradeStop, items_are_one, upgrade};
use command_line::UpgradeRequest;
use command_runs::{Status, print, print_stop};
use fx_edge::{Folder, Sink};
use report::certificates::{cert_fault_line, new_too_long_line, upgraded_line};
use std::alloc::Global;
use whole_texts::ReadStop;

// Puts how many sections and steps a certificate has.
fn print_counts<O: Sink>(alloc: Global, counts: Seen, out: &mut O) -> Status
    ensures { IsLinePut Status.Answered (upgraded_line counts)
        (O.taken out.old) (O.taken out.new) (O.faults out.old) (O.faults out.new) result }
{
    match upgraded_line(alloc, counts) {
        Ok(line) => print(out, &line, Status::Answered),
        Err(_) => Status::OutOfMemory,
    }
}

// Puts the fault of a certificate's bytes.
fn print_fault<O: Sink>(alloc: Global, fault: CertFault, out: &mut O) -> Status
    ensures { IsLinePut Status.Certificate (cert_fault_line fault)
        (O.taken out.old) (O.taken out.new) (O.faults out.old) (O.faults out.new) result }
{
    match cert_fault_line(alloc, fault) {
        Ok(line) => print(out, &line, Status::Certificate),
        Err(_) => Status::OutOfMemory,
    }
}

/// Rewrites a certificate in version 2 under another name, and puts how many sections and steps it
/// has, or why it isn't rewritten. It is read to its end before the new file is made.
pub fn run_upgrade<F: Folder, O: Sink>(
    alloc: Global,
    request: UpgradeRequest<'_>,
    folder: &mut F,
    out: &mut O,
) -> Status
    requires { request.cert.now ≢ request.new.now }
    ensures { IsUpgradeRun (upgrade_of request.entry)
        (run (seen F.Folder O.Sink folder.old out.old) (seen F.Folder O.Sink folder.new out.new)
        result) }
{
    items_are_one();
    match upgrade(alloc, folder, request.cert, request.new) {
        Ok(counts) => print_counts(alloc, counts, out),
        Err(UpgradeStop::Fault(fault)) => print_fault(alloc, fault, out),
        Err(UpgradeStop::NewTooLong) => print(out, new_too_long_line(), Status::Certificate),
        Err(UpgradeStop::ReadFailed) => print_stop(alloc, request.cert, ReadStop::Fault, out),
        Err(UpgradeStop::WriteFailed) => Status::WriteFault,
        Err(UpgradeStop::OutOfMemory) => Status::OutOfMemory,
    }
}
