// What the words of the command line ask for.
ghost use Rattle.std.specs.Prelude.{◌≡◌, map, string_bytes, Some, None, IfOk, IfErr};
ghost use Rattle.fx_top.specs.Commands.{IsSound, command_from, reading};

use command_line::{
    AtRequest, BatchRequest, CheckRequest, FixRequest, Request, TrimRequest, UpgradeRequest,
    WordsError, read_at, read_batch, read_check, read_fix, read_gen, read_prove, read_trim,
    read_upgrade,
};
use std::alloc::Global;

/// What the words ask for.
#[derive(Clone, Copy, Debug)]
pub enum Invocation<'a> {
    /// A script is to be proved.
    Prove(Request<'a>),
    /// A certificate is to be checked.
    Check(CheckRequest<'a>),
    /// The made script of this degree is to be proved.
    Gen(u8),
    /// A certificate is to be rewritten.
    Upgrade(UpgradeRequest<'a>),
    /// A program is to be turned into a script.
    Fix(FixRequest<'a>),
    /// A script is to be evaluated at a point.
    At(AtRequest<'a>),
    /// A certificate is to be written without unused steps.
    Trim(TrimRequest<'a>),
    /// The scripts of a list are to be proved.
    Batch(BatchRequest<'a>),
}

/// What the words ask for: the first names the command, and the others are read as its own. `Usage`
/// comes exactly where they ask for nothing.
pub fn command_of<'a>(alloc: Global, words: &'a [String]) -> Result<Invocation<'a>, WordsError>
    ensures ok { IfOk result
        (λ w. reading (map string_bytes words.entry.now) ≡ Some (command_from w)) }
    ensures usage { IfErr result (λ e. e ≡ WordsError.Usage
        → reading (map string_bytes words.entry.now) ≡ None) }
    ensures sound { IfOk result IsSound }
{
    let [command, words @ ..] = words else {
        return Err(WordsError::Usage);
    };
    if command.as_str() == "prove" {
        Ok(Invocation::Prove(read_prove(alloc, words)?))
    } else if command.as_str() == "check" {
        Ok(Invocation::Check(read_check(alloc, words)?))
    } else if command.as_str() == "gen" {
        Ok(Invocation::Gen(read_gen(alloc, words)?))
    } else if command.as_str() == "upgrade" {
        Ok(Invocation::Upgrade(read_upgrade(alloc, words)?))
    } else if command.as_str() == "fix" {
        Ok(Invocation::Fix(read_fix(alloc, words)?))
    } else if command.as_str() == "at" {
        Ok(Invocation::At(read_at(alloc, words)?))
    } else if command.as_str() == "trim" {
        Ok(Invocation::Trim(read_trim(alloc, words)?))
    } else if command.as_str() == "batch" {
        Ok(Invocation::Batch(read_batch(alloc, words)?))
    } else {
        Err(WordsError::Usage)
    }
}
