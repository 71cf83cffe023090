// The words after `gen`.
ghost use Rattle.std.specs.Prelude.{◌≡◌, ◌≤◌, map, string_bytes, IfOk, IfErr, IfSome, Some, None};
ghost use Rattle.clap.specs.Words.{app_of, found_of, first_value};
ghost use Rattle.command_line.specs.Made.{gen_app, asked_gen, degree_from};

use crate::numbers::number;
use crate::simple::{WordsError, bare, matches_by, name};
use clap::{ArgMatches, Command};
use std::alloc::{AllocError, Global};

fn gen_command<'a>(alloc: Global) -> Result<Command<'a>, AllocError>
    ensures { IfOk result (λ c. app_of c ≡ gen_app) }
{
    bare(alloc, "gen").arg(name(alloc, "degree"))
}

// The degree in what clap found.
fn degree_in(matches: &ArgMatches<'_>) -> Option<u8>
    ensures is { result ≡ degree_from (first_value (found_of matches.now)) }
    ensures range { IfSome result (λ n. (1 ≤ n) × (n ≤ 12)) }
{
    let text = matches.get_str("degree")?;
    let degree = number(text, 1, 12)?;
    Some(degree as u8)
}

/// Reads the words after `gen`, by what clap states of a simple command: one name, which is a
/// number from 1 to 12 in plain decimal. `Usage` comes exactly where they ask for nothing.
#[tactic(auto, unfolding(crate::specs::Made::asked_gen))]
pub fn read_gen(alloc: Global, words: &[String]) -> Result<u8, WordsError>
    ensures ok { IfOk result (λ n. asked_gen (map string_bytes words.now) ≡ Some n) }
    ensures usage { IfErr result (λ e. e ≡ WordsError.Usage
        → asked_gen (map string_bytes words.now) ≡ None) }
    ensures range { IfOk result (λ n. (1 ≤ n) × (n ≤ 12)) }
{
    let Ok(command) = gen_command(alloc) else {
        return Err(WordsError::OutOfMemory);
    };
    match matches_by(command, words) {
        Ok(matches) => match degree_in(&matches) {
            Some(degree) => Ok(degree),
            None => Err(WordsError::Usage),
        },
        Err(error) => Err(error),
    }
}
