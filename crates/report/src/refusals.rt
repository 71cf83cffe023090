//! Lines of refusals.

ghost use Rattle.std.specs.Prelude.{◌≡◌, IfOk};
ghost use Rattle.report.specs.Lines as spec;

use script_judge::{LimitKind, Refusal, RefusalKind};
use std::alloc::{AllocError, Global};

/// The kind's name, with what there is too much of.
fn limit_text(kind: LimitKind) -> &'static str
    ensures { result.now ≡ spec.kind_text (RefusalKind.Limit kind) }
{
    match kind {
        LimitKind::Bytes => "Limit(Bytes)",
        LimitKind::Nesting => "Limit(Nesting)",
        LimitKind::Definitions => "Limit(Definitions)",
        LimitKind::Propositions => "Limit(Propositions)",
        LimitKind::Hints => "Limit(Hints)",
        LimitKind::Nodes => "Limit(Nodes)",
        LimitKind::Lsb => "Limit(Lsb)",
        LimitKind::Splits => "Limit(Splits)",
        LimitKind::Pieces => "Limit(Pieces)",
        LimitKind::Cases => "Limit(Cases)",
    }
}

/// The kind's name.
fn kind_text(kind: RefusalKind) -> &'static str
    ensures { result.now ≡ spec.kind_text kind }
{
    match kind {
        RefusalKind::NotText => "NotText",
        RefusalKind::BadToken => "BadToken",
        RefusalKind::Unexpected => "Unexpected",
        RefusalKind::FormulaForm => "FormulaForm",
        RefusalKind::UnsupportedOperator => "UnsupportedOperator",
        RefusalKind::NameUsed => "NameUsed",
        RefusalKind::BadBound => "BadBound",
        RefusalKind::SplitRange => "SplitRange",
        RefusalKind::BadSplit => "BadSplit",
        RefusalKind::LiteralLimit => "LiteralLimit",
        RefusalKind::Limit(kind) => limit_text(kind),
    }
}

/// The line of a refused text: why, and at which byte, counted from 0. `Err` only where memory runs
/// out.
pub fn refusal_line(alloc: Global, refusal: Refusal) -> Result<Vec<u8>, AllocError>
    ensures { IfOk result (λ line. line.items ≡ spec.refusal_line refusal) }
{
    let kind = kind_text(refusal.kind);
    let at = refusal.at;
    let line = format!(in alloc; "script: {kind} at {at}\n")?;
    Ok(line.into_bytes())
}
