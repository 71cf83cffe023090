// The text of the made script.
ghost use Rattle.std.specs.Prelude.{◌≡◌, ◌++◌, ◌+◌, ◌<◌, codes, string_bytes, IfOk};
ghost use Rattle.made_script.specs.Script as spec;

use std::alloc::{AllocError, Global};

// The factor of the power i, in units of 2^-6.
fn coefficient(i: u8) -> u32
    ensures { result ≡ spec.coefficient i }
{
    (37 * u32::from(i) + 11) % 64
}

// What x is multiplied by at the power i, from the text of the polynomial from the next power on.
#[tactic(auto, using(crate::proofs::Nested::factor_inside, crate::proofs::Nested::factor_last))]
fn factor(alloc: Global, n: u8, i: u8, inner: String) -> Result<String, AllocError>
    requires { i < n }
    ensures { IfOk result (λ text. string_bytes text ≡ spec.factor n i (string_bytes inner)) }
{
    if i + 1 < n {
        let text = format!(in alloc; "({inner})")?;
        Ok(text)
    } else {
        Ok(inner)
    }
}

// The polynomial of degree n from the power i on, from its text from the next power on.
fn before(alloc: Global, n: u8, i: u8, inner: String) -> Result<String, AllocError>
    requires { i < n }
    ensures { IfOk result (λ p. string_bytes p
        ≡ spec.factor n i (string_bytes inner) ++ codes " * x + " ++ spec.literal i) }
{
    let factor = factor(alloc, n, i, inner)?;
    let c = coefficient(i);
    let text = format!(in alloc; "{factor} * x + {c}b-6")?;
    Ok(text)
}

// The polynomial of degree n.
fn polynomial(alloc: Global, n: u8) -> Result<String, AllocError>
    ensures { IfOk result (λ p. string_bytes p ≡ spec.polynomial n 0) }
{
    let c = coefficient(n);
    let mut text = format!(in alloc; "{c}b-6")?;
    let mut i = n;
    while i > 0 {
        i -= 1;
        text = before(alloc, n, i, text)?;
    }
    Ok(text)
}

/// The text of the made script of degree `n`: its polynomial with operations rounded down to
/// multiples of 2^-12, against the same without roundings, for x from 0 to 1 in 64 pieces. `Err`
/// only where memory runs out.
pub fn made_script(alloc: Global, n: u8) -> Result<Vec<u8>, AllocError>
    ensures { IfOk result (λ text. text.items ≡ spec.script_text n) }
{
    let p = polynomial(alloc, n)?;
    let mut text = Vec::new(alloc);
    text.extend_from_slice("@q = fixed<-12,dn>;\n".as_bytes())?;
    text.extend_from_slice("y q= ".as_bytes())?;
    text.extend_from_slice(p.as_bytes())?;
    text.extend_from_slice(";\n".as_bytes())?;
    text.extend_from_slice("My = ".as_bytes())?;
    text.extend_from_slice(p.as_bytes())?;
    text.extend_from_slice(";\n".as_bytes())?;
    text.extend_from_slice("{ x in [0,1] -> y - My in ? }\n".as_bytes())?;
    text.extend_from_slice("$ x in 64;\n".as_bytes())?;
    Ok(text)
}

/// For readers alone; nothing is done. The clauses say how the polynomial of degree `n` is written:
/// from the last power on it is a literal, and from an earlier one on it is what it is from the
/// next one on, times x, and a literal.
pub fn polynomials_are_nested()
    ensures last { spec.EndsInALiteral }
    ensures nested { spec.AreNested }
{}
