// The words after `check`.
ghost use Rattle.std.specs.Prelude.{◌≡◌, map, string_bytes, IfOk, IfErr, Some, None};
ghost use Rattle.command_line.specs.Check.{asked_check, check_of};

use crate::names::two_names;
use crate::simple::WordsError;
use std::alloc::Global;

/// What `check` is asked for.
#[derive(Clone, Copy, Debug)]
pub struct CheckRequest<'a> {
    /// The script's name; it isn't empty.
    pub script: &'a str,
    /// The certificate's name; it is neither empty nor the script's.
    pub cert: &'a str,
}

/// Reads the words after `check`, by what clap states of a simple command: two names, of a script
/// and of a certificate, of which none is empty and which aren't equal. `Usage` comes exactly where
/// they ask for nothing.
#[tactic(auto, unfolding(crate::specs::Check::asked_check))]
pub fn read_check<'a>(alloc: Global, words: &'a [String]) -> Result<CheckRequest<'a>, WordsError>
    ensures ok { IfOk result
        (λ r. asked_check (map string_bytes words.entry.now) ≡ Some (check_of r)) }
    ensures usage { IfErr result (λ e. e ≡ WordsError.Usage
        → asked_check (map string_bytes words.entry.now) ≡ None) }
{
    let names = two_names(alloc, "check", "script", "cert", words)?;
    Ok(CheckRequest {
        script: names.first,
        cert: names.second,
    })
}
