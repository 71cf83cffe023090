//! Reading a literal.

ghost use Rattle.std.specs.Prelude.{◌≡◌, ◌↔◌, Err, IfOk};
ghost use Rattle.literal.specs.Spelling.{Spelling, Spells, IsLiteral};
ghost use Rattle.literal.specs.Normal.{IsReading, IsPastLimits, IsNormal};

use crate::normal::normal_form;
use crate::number::written;
use crate::scan::parts_of;
use fx_model::Literal;
use thiserror::Error;

/// Why a text is no number.
#[derive(Clone, Copy, PartialEq, Eq, Debug, Drop, Error)]
pub enum LiteralFault {
    /// The text isn't a literal.
    #[error("not a literal")]
    BadLiteral,
    /// The text is a literal past the limits of its digits or its exponent.
    #[error("a literal past its limits")]
    LiteralLimit,
}

/// The normal form of the number that a text spells.
pub fn read(text: &str) -> Result<Literal, LiteralFault>
    ensures reading { IfOk result (IsReading text.now) }
    ensures normal { IfOk result IsNormal }
    ensures bad { (result ≡ Err LiteralFault.BadLiteral) ↔ ¬ IsLiteral text.now }
    ensures past { (result ≡ Err LiteralFault.LiteralLimit) ↔ IsPastLimits text.now }
    // A text has the parts of one literal alone.
    ensures one { (x y : Spelling) → Spells text.now x → Spells text.now y → x ≡ y }
{
    read_bytes(text.as_bytes())
}

/// The normal form of the number that bytes spell.
pub fn read_bytes(text: &[u8]) -> Result<Literal, LiteralFault>
    ensures reading { IfOk result (IsReading text.now) }
    ensures normal { IfOk result IsNormal }
    ensures bad { (result ≡ Err LiteralFault.BadLiteral) ↔ ¬ IsLiteral text.now }
    ensures past { (result ≡ Err LiteralFault.LiteralLimit) ↔ IsPastLimits text.now }
    // A text has the parts of one literal alone.
    ensures one { (x y : Spelling) → Spells text.now x → Spells text.now y → x ≡ y }
{
    let Some(parts) = parts_of(text) else {
        return Err(LiteralFault::BadLiteral);
    };
    let Some(number) = written(&parts) else {
        return Err(LiteralFault::LiteralLimit);
    };
    Ok(normal_form(parts.form, number))
}
