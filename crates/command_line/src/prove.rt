// The words after `prove`.
ghost use Rattle.std.specs.Prelude.{◌≡◌, map, string_bytes, IfOk, IfErr, IfSome, Some, None};
ghost use Rattle.std.specs.Option.{option_map};
ghost use Rattle.clap.specs.Words.{app_of, found_of, first_value};
ghost use Rattle.command_line.specs.Reading.{prove_app, asked, asked_of, asked_from, AreInRange};

use crate::options::{options_in, with_options};
use crate::simple::{WordsError, are_names, bare, matches_by, name, option};
use clap::{ArgMatches, Command};
use proof_options::Options;
use std::alloc::{AllocError, Global};

/// What `prove` is asked for.
#[derive(Clone, Copy, Debug)]
pub struct Request<'a> {
    /// The script's name; it isn't empty.
    pub script: &'a str,
    /// The certificate's name, if one is to be written; it is neither empty nor the script's.
    pub cert: Option<&'a str>,
    /// How it is to be proved.
    pub options: Options,
}

fn prove_command<'a>(alloc: Global) -> Result<Command<'a>, AllocError>
    ensures { IfOk result (λ c. app_of c ≡ prove_app) }
{
    let command = bare(alloc, "prove")
        .arg(name(alloc, "script"))?
        .arg(option(alloc, "cert"))?;
    with_options(alloc, command)
}

// The request in what clap found.
fn request_from<'a>(matches: &ArgMatches<'a>) -> Option<Request<'a>>
    ensures is { option_map asked_of result ≡ asked_from (first_value (found_of matches.now)) }
    ensures range { IfSome result AreInRange }
{
    let script = matches.get_str("script")?;
    let cert = matches.get_str("cert");
    let options = options_in(matches, 4096, 8192)?;
    if !are_names(script, cert) {
        return None;
    }
    Some(Request {
        script,
        cert,
        options,
    })
}

/// Reads the words after `prove`, by what clap states of a simple command: one name, and options
/// `--cert`, `--rounds`, `--depth`, `--boxes`, `--workers`, each at most once, as `--name value` or
/// `--name=value`, anywhere before `--`. The value of `--cert` isn't empty and isn't the name.
/// `Usage` comes exactly where they ask for nothing.
#[tactic(auto, unfolding(crate::specs::Reading::asked))]
pub fn read_prove<'a>(alloc: Global, words: &'a [String]) -> Result<Request<'a>, WordsError>
    ensures ok { IfOk result (λ r. asked (map string_bytes words.entry.now) ≡ Some (asked_of r)) }
    ensures usage { IfErr result (λ e. e ≡ WordsError.Usage
        → asked (map string_bytes words.entry.now) ≡ None) }
    ensures range { IfOk result AreInRange }
{
    let Ok(command) = prove_command(alloc) else {
        return Err(WordsError::OutOfMemory);
    };
    match matches_by(command, words) {
        Ok(matches) => match request_from(&matches) {
            Some(request) => Ok(request),
            None => Err(WordsError::Usage),
        },
        Err(error) => Err(error),
    }
}
