// The words after `batch`.
ghost use Rattle.std.specs.Prelude.{◌≡◌, map, string_bytes, IfOk, IfErr, IfSome, Some, None};
ghost use Rattle.std.specs.Option.{option_map};
ghost use Rattle.clap.specs.Words.{app_of, found_of, first_value};
ghost use Rattle.command_line.specs.Batch.{batch_app, asked_batch, batch_from, batch_of};
ghost use Rattle.command_line.specs.Batch.{AreInBatchRange};

use crate::options::{options_in, with_options};
use crate::simple::{WordsError, are_names, bare, matches_by, name};
use clap::{ArgMatches, Command};
use proof_options::Options;
use std::alloc::{AllocError, Global};

/// What `batch` is asked for.
#[derive(Clone, Copy, Debug)]
pub struct BatchRequest<'a> {
    /// The name of a list of scripts; it isn't empty.
    pub list: &'a str,
    /// How each script is to be proved, over 512 boxes at most.
    pub options: Options,
}

fn batch_command<'a>(alloc: Global) -> Result<Command<'a>, AllocError>
    ensures { IfOk result (λ c. app_of c ≡ batch_app) }
{
    let command = bare(alloc, "batch").arg(name(alloc, "list"))?;
    with_options(alloc, command)
}

// The request in what clap found.
fn request_in<'a>(matches: &ArgMatches<'a>) -> Option<BatchRequest<'a>>
    ensures is { option_map batch_of result ≡ batch_from (first_value (found_of matches.now)) }
    ensures range { IfSome result AreInBatchRange }
{
    let list = matches.get_str("list")?;
    let options = options_in(matches, 256, 512)?;
    if !are_names(list, None) {
        return None;
    }
    Some(BatchRequest { list, options })
}

/// Reads the words after `batch`, by what clap states of a simple command: one name, which isn't
/// empty, and options `--rounds`, `--depth`, `--boxes`, `--workers`, each at most once, as
/// `--name value` or `--name=value`, anywhere before `--`. `Usage` comes exactly where they ask
/// for nothing.
#[tactic(auto, unfolding(crate::specs::Batch::asked_batch))]
pub fn read_batch<'a>(alloc: Global, words: &'a [String]) -> Result<BatchRequest<'a>, WordsError>
    ensures ok { IfOk result (λ r.
        asked_batch (map string_bytes words.entry.now) ≡ Some (batch_of r)) }
    ensures usage { IfErr result (λ e. e ≡ WordsError.Usage
        → asked_batch (map string_bytes words.entry.now) ≡ None) }
    ensures range { IfOk result AreInBatchRange }
{
    let Ok(command) = batch_command(alloc) else {
        return Err(WordsError::OutOfMemory);
    };
    match matches_by(command, words) {
        Ok(matches) => match request_in(&matches) {
            Some(request) => Ok(request),
            None => Err(WordsError::Usage),
        },
        Err(error) => Err(error),
    }
}
