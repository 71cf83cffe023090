// The words after `fix`.
ghost use Rattle.std.specs.Prelude.{◌≡◌, ◌≢◌, map, string_bytes, IfOk, IfErr, Some, None};
ghost use Rattle.command_line.specs.Fix.{asked_fix, fix_of};

use crate::names::two_names;
use crate::simple::WordsError;
use std::alloc::Global;

/// What `fix` is asked for.
#[derive(Clone, Copy, Debug)]
pub struct FixRequest<'a> {
    /// The program's name; it isn't empty.
    pub program: &'a str,
    /// The name of the script to be written; it is neither empty nor the program's.
    pub script: &'a str,
}

/// Reads the words after `fix`, by what clap states of a simple command: two names, of a program
/// and of a script, of which none is empty and which aren't equal. `Usage` comes exactly where
/// they ask for nothing.
#[tactic(auto, unfolding(crate::specs::Fix::asked_fix))]
pub fn read_fix<'a>(alloc: Global, words: &'a [String]) -> Result<FixRequest<'a>, WordsError>
    ensures ok { IfOk result (λ r.
        asked_fix (map string_bytes words.entry.now) ≡ Some (fix_of r)) }
    ensures apart { IfOk result (λ r. r.program.now ≢ r.script.now) }
    ensures usage { IfErr result (λ e. e ≡ WordsError.Usage
        → asked_fix (map string_bytes words.entry.now) ≡ None) }
{
    let names = two_names(alloc, "fix", "program", "script", words)?;
    Ok(FixRequest {
        program: names.first,
        script: names.second,
    })
}
