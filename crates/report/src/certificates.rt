//! Lines of certificates that aren't accepted, or are rewritten.

ghost use Rattle.std.specs.Prelude.{◌≡◌, IfOk, string_bytes};
ghost use Rattle.report.specs.Certificates as spec;

use cert_bytes::{CertFault, CertKind, Seen};
use cert_checker::CheckFault;
use std::alloc::{AllocError, Global};

/// The kind's name.
fn cert_kind_text(kind: CertKind) -> &'static str
    ensures { result.now ≡ spec.cert_kind_text kind }
{
    match kind {
        CertKind::BadMagic => "BadMagic",
        CertKind::BadVersion => "BadVersion",
        CertKind::Truncated => "Truncated",
        CertKind::BadTag => "BadTag",
        CertKind::BadNumber => "BadNumber",
        CertKind::BadCount => "BadCount",
        CertKind::TrailingBytes => "TrailingBytes",
        CertKind::TooLong => "TooLong",
    }
}

/// The line of bytes that spell no certificate: why, and at which byte, counted from 0. `Err` only
/// where memory runs out.
pub fn cert_fault_line(alloc: Global, fault: CertFault) -> Result<Vec<u8>, AllocError>
    ensures { IfOk result (λ line. line.items ≡ spec.cert_fault_line fault) }
{
    let kind = cert_kind_text(fault.kind);
    let at = fault.at;
    let line = format!(in alloc; "certificate: {kind} at {at}\n")?;
    Ok(line.into_bytes())
}

// That a leaf names no step that settles the goal, with the section's number and the goal's.
fn goal_missing_text(alloc: Global, section: u64, goal: u16) -> Result<String, AllocError>
    ensures { IfOk result (λ text. string_bytes text
        ≡ spec.check_fault_text (CheckFault.GoalMissing section goal)) }
{
    let text = format!(in alloc; "GoalMissing {section} {goal}")?;
    Ok(text)
}

// What is wrong with an item, with its numbers, one space before each.
fn check_fault_text(alloc: Global, fault: CheckFault) -> Result<String, AllocError>
    ensures { IfOk result (λ text. string_bytes text ≡ spec.check_fault_text fault) }
{
    match fault {
        CheckFault::BadStep(step) => format!(in alloc; "BadStep {step}"),
        CheckFault::BadPremise(step) => format!(in alloc; "BadPremise {step}"),
        CheckFault::BadCut(section) => format!(in alloc; "BadCut {section}"),
        CheckFault::GoalMissing(section, goal) => goal_missing_text(alloc, section, goal),
        CheckFault::HintMark(hint) => format!(in alloc; "HintMark {hint}"),
        CheckFault::WrongScript(node) => format!(in alloc; "WrongScript {node}"),
        CheckFault::BadNode(node) => format!(in alloc; "BadNode {node}"),
        CheckFault::BadCases(count) => format!(in alloc; "BadCases {count}"),
    }
}

/// The line of a certificate by its first item that isn't accepted: what is wrong with it. Steps,
/// sections and nodes are numbered from 0, goals and hints from 1. `Err` only where memory runs
/// out.
pub fn check_fault_line(alloc: Global, fault: CheckFault) -> Result<Vec<u8>, AllocError>
    ensures { IfOk result (λ line. line.items ≡ spec.check_fault_line fault) }
{
    let text = check_fault_text(alloc, fault)?;
    let line = format!(in alloc; "certificate: {text}\n")?;
    Ok(line.into_bytes())
}

/// The line of a certificate that was rewritten: how many sections and steps it has. `Err` only
/// where memory runs out.
pub fn upgraded_line(alloc: Global, counts: Seen) -> Result<Vec<u8>, AllocError>
    ensures { IfOk result (λ line. line.items ≡ spec.upgraded_line counts) }
{
    let sections = counts.sections;
    let steps = counts.steps;
    let line = format!(in alloc; "upgraded: {sections} sections, {steps} steps\n")?;
    Ok(line.into_bytes())
}

/// The line of a certificate that would be too long, were it rewritten.
pub fn new_too_long_line() -> &'static [u8]
    ensures { result.now ≡ spec.new_too_long_line }
{
    "certificate: NewTooLong at 17592186044416\n".as_bytes()
}
