// The words after `at`.
ghost use Rattle.std.specs.Prelude.{◌≡◌, map, string_bytes, IfOk, IfErr, Some, None};
ghost use Rattle.command_line.specs.At.{asked_at, at_of};

use crate::names::two_names;
use crate::simple::WordsError;
use std::alloc::Global;

/// What `at` is asked for.
#[derive(Clone, Copy, Debug)]
pub struct AtRequest<'a> {
    /// The script's name; it isn't empty.
    pub script: &'a str,
    /// The point's name; it is neither empty nor the script's.
    pub point: &'a str,
}

/// Reads the words after `at`, by what clap states of a simple command: two names, of a script
/// and of a point, of which none is empty and which aren't equal. `Usage` comes exactly where
/// they ask for nothing.
#[tactic(auto, unfolding(crate::specs::At::asked_at))]
pub fn read_at<'a>(alloc: Global, words: &'a [String]) -> Result<AtRequest<'a>, WordsError>
    ensures ok { IfOk result (λ r.
        asked_at (map string_bytes words.entry.now) ≡ Some (at_of r)) }
    ensures usage { IfErr result (λ e. e ≡ WordsError.Usage
        → asked_at (map string_bytes words.entry.now) ≡ None) }
{
    let names = two_names(alloc, "at", "script", "point", words)?;
    Ok(AtRequest {
        script: names.first,
        point: names.second,
    })
}
