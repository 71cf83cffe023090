// The words after `trim`.
ghost use Rattle.std.specs.Prelude.{◌≡◌, ◌≢◌, map, string_bytes, IfOk, IfErr, IfSome, Some, None};
ghost use Rattle.std.specs.Option.{option_map};
ghost use Rattle.clap.specs.Words.{app_of, found_of, first_value};
ghost use Rattle.command_line.specs.Trim.{trim_app, asked_trim, trim_from, trim_of};
ghost use Rattle.command_line.specs.Trim.{are_three_names};

use crate::names::names_command;
use crate::simple::{WordsError, are_names, matches_by, name};
use clap::{ArgMatches, Command};
use std::alloc::{AllocError, Global};

/// What `trim` is asked for.
#[derive(Clone, Copy, Debug)]
pub struct TrimRequest<'a> {
    /// The script's name; it isn't empty.
    pub script: &'a str,
    /// The certificate's name; it is neither empty nor the script's.
    pub cert: &'a str,
    /// The new certificate's name; it is neither empty nor one of the others.
    pub new: &'a str,
}

fn trim_command<'a>(alloc: Global) -> Result<Command<'a>, AllocError>
    ensures { IfOk result (λ c. app_of c ≡ trim_app) }
{
    names_command(alloc, "trim", "script", "cert")?.arg(name(alloc, "new"))
}

// None is empty, and no two are equal.
fn are_three_names(script: &str, cert: &str, new: &str) -> bool
    ensures { result ≡ are_three_names script.now cert.now new.now }
{
    are_names(script, Some(cert)) && are_names(script, Some(new)) && are_names(cert, Some(new))
}

// The request in what clap found.
fn request_in<'a>(matches: &ArgMatches<'a>) -> Option<TrimRequest<'a>>
    ensures read { option_map trim_of result ≡ trim_from (first_value (found_of matches.now)) }
    ensures apart { IfSome result (λ r.
        (r.script.now ≢ r.new.now) × (r.cert.now ≢ r.new.now)) }
{
    let script = matches.get_str("script")?;
    let cert = matches.get_str("cert")?;
    let new = matches.get_str("new")?;
    if !are_three_names(script, cert, new) {
        return None;
    }
    Some(TrimRequest { script, cert, new })
}

/// Reads the words after `trim`, by what clap states of a simple command: three names, of a
/// script, of a certificate and of a new one, of which none is empty and no two are equal. `Usage`
/// comes exactly where they ask for nothing.
#[tactic(auto, unfolding(crate::specs::Trim::asked_trim))]
pub fn read_trim<'a>(alloc: Global, words: &'a [String]) -> Result<TrimRequest<'a>, WordsError>
    ensures ok { IfOk result (λ r.
        asked_trim (map string_bytes words.entry.now) ≡ Some (trim_of r)) }
    ensures apart { IfOk result (λ r.
        (r.script.now ≢ r.new.now) × (r.cert.now ≢ r.new.now)) }
    ensures usage { IfErr result (λ e. e ≡ WordsError.Usage
        → asked_trim (map string_bytes words.entry.now) ≡ None) }
{
    let Ok(command) = trim_command(alloc) else {
        return Err(WordsError::OutOfMemory);
    };
    match matches_by(command, words) {
        Ok(matches) => match request_in(&matches) {
            Some(request) => Ok(request),
            None => Err(WordsError::Usage),
        },
        Err(error) => Err(error),
    }
}
