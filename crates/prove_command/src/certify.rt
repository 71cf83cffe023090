// What comes of a text: its lines, and the certificate that is written once they are made.
ghost use Rattle.proof_options.specs.Ranges.{AreAllowed};
ghost use Rattle.rewrite_hints.specs.Marks.{AreMarks};
ghost use Rattle.settler.specs.Answers.{options_from};
ghost use Rattle.settler.specs.Jobs.{IsJob};
ghost use Rattle.cert_writer.specs.Written.{IsProvedWith};
ghost use Rattle.prove_command.specs.Certified.{IsCertifiedBy, IsWrittenBy, name_of};

use cert_writer::{WriteStop, write_cert};
use command_line::Request;
use command_runs::Status;
use facts::HintMark;
use fx_edge::{Folder, Gate};
use script_answers::{Found, prove_job, proved_lines, unbuilt_line};
use script_grammar::{Script, parse};
use script_texts::refused_line;
use settler::Job;
use std::alloc::{AllocError, Global};
use std::sync::Wait;
use std::thread::Threads;
use universe::classify;

/// What came of a text: the status and all lines, and whether the writing of its certificate came
/// to its end.
#[derive(Drop)]
pub struct Certified {
    pub status: Status,
    pub lines: Vec<u8>,
    pub written: Result<(), WriteStop>,
}

// Writes the certificate that is asked for of a job that is proved.
fn write_asked<F: Folder>(
    alloc: Global,
    job: &mut Job<'_, '_>,
    marks: &[HintMark],
    folder: &mut F,
    cert: Option<&str>,
) -> Result<(), WriteStop>
    requires job { IsJob job.old }
    requires marks { AreMarks job.old.script.now.nodes job.old.script.now.hints.rewrites marks.now }
    requires proved { IsProvedWith
        job.old.script.now job.old.options.rounds job.old.options.depth }
    ensures { IsWrittenBy F.Folder (options_from job.old.options) job.old.script.now
        (name_of cert.entry) folder.old folder.new result }
{
    match cert {
        Some(name) => write_cert(alloc, job, marks, folder, name),
        None => Ok(()),
    }
}

// What comes of a job. The marks of its hints are made once, for its lines and its certificate.
fn certify_job<F: Folder, G: Gate, R: Threads + Wait + Sync>(
    rt: &R,
    alloc: Global,
    job: &mut Job<'_, '_>,
    folder: &mut F,
    cert: Option<&str>,
    gate: &G,
) -> Result<Certified, AllocError>
    requires job { IsJob job.old }
    ensures { IsCertifiedBy F.Folder (options_from job.old.options) job.old.script.now.text
        (name_of cert.entry) folder.old folder.new result }
{
    let found = prove_job(rt, alloc, job, gate)?;
    match found {
        Found::Stopped(status, lines) => Ok(Certified {
            status,
            lines,
            written: Ok(()),
        }),
        Found::Proved(_, shown) => {
            let marks = classify(alloc, job.script)?;
            let lines = proved_lines(alloc, job.script, shown.as_slice(), &marks)?;
            let written = write_asked(alloc, job, &marks, folder, cert);
            Ok(Certified {
                status: Status::Answered,
                lines,
                written,
            })
        }
    }
}

// What comes of a script, as the request asks for it.
fn certify_script<F: Folder, G: Gate, R: Threads + Wait + Sync>(
    rt: &R,
    alloc: Global,
    script: &Script<'_>,
    request: &Request<'_>,
    folder: &mut F,
    gate: &G,
) -> Result<Certified, AllocError>
    requires { AreAllowed request.now.options }
    ensures { IsCertifiedBy F.Folder (options_from request.now.options) script.now.text
        (name_of request.now.cert) folder.old folder.new result }
{
    match Job::new(alloc, script, request.options) {
        Ok(mut job) => certify_job(rt, alloc, &mut job, folder, request.cert, gate),
        Err(fault) => {
            let lines = unbuilt_line(alloc, script, fault)?;
            Ok(Certified {
                status: Status::Limit,
                lines,
                written: Ok(()),
            })
        }
    }
}

/// What comes of a text, as the request asks for it: its status and lines under the options, and
/// where a file is named and all goals are settled, the certificate, which is written there once
/// the lines are made. `Err` only where memory runs out before anything is written. It may wait.
pub fn certify_text<F: Folder, G: Gate, R: Threads + Wait + Sync>(
    rt: &R,
    alloc: Global,
    text: &[u8],
    request: &Request<'_>,
    folder: &mut F,
    gate: &G,
) -> Result<Certified, AllocError>
    requires { AreAllowed request.now.options }
    ensures { IsCertifiedBy F.Folder (options_from request.now.options) text.now
        (name_of request.now.cert) folder.old folder.new result }
{
    match parse(alloc, text) {
        Ok(script) => certify_script(rt, alloc, &script, request, folder, gate),
        Err(stop) => {
            let lines = refused_line(alloc, text, stop)?;
            Ok(Certified {
                status: Status::Script,
                lines,
                written: Ok(()),
            })
        }
    }
}
