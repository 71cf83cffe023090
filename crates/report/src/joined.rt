// Tokens of a text, joined.

ghost use Rattle.std.specs.Prelude.{◌≡◌, ◌++◌, OnOk};
ghost use Rattle.report.specs.Lines as spec;

use crate::parts::part;
use script_words::lex::Token;
use std::alloc::AllocError;

/// The token's part of the text.
fn token_text<'a>(text: &'a [u8], token: Token) -> &'a [u8]
    ensures { result.now ≡ spec.token_text text.now token }
{
    part(text, token.start as usize, token.end as usize)
}

/// Appends the tokens' texts, one space between two. `Err` only where memory runs out; the line may
/// then have a part of them.
pub fn put_joined(line: &mut Vec<u8>, text: &[u8], tokens: &[Token]) -> Result<(), AllocError>
    ensures added { OnOk result
        (line.new.items ≡ line.old.items ++ spec.joined text.now tokens.now) }
{
    let [first, more @ ..] = tokens else {
        return Ok(());
    };
    line.extend_from_slice(token_text(text, *first))?;
    let mut rest = more;
    while let [token, later @ ..] = rest {
        line.push(b' ')?;
        line.extend_from_slice(token_text(text, *token))?;
        rest = later;
    }
    Ok(())
}
