// The options that `prove` and `batch` share.
ghost use Rattle.std.specs.Prelude.{◌≡◌, ◌≤◌, IfOk, IfSome};
ghost use Rattle.clap.specs.Words.{app_of, found_of, first_value};
ghost use Rattle.command_line.specs.Numbers.{number_or};
ghost use Rattle.proof_options.specs.Ranges.{AreWithin};
ghost use Rattle.command_line.specs.Options.{with_options, options_from};

use crate::numbers::number;
use crate::simple::option;
use clap::{ArgMatches, Command};
use proof_options::Options;
use std::alloc::{AllocError, Global};

/// The command with these options too.
pub fn with_options<'a>(alloc: Global, command: Command<'a>) -> Result<Command<'a>, AllocError>
    ensures { IfOk result (λ c. app_of c ≡ with_options (app_of command.entry)) }
{
    command
        .arg(option(alloc, "rounds"))?
        .arg(option(alloc, "depth"))?
        .arg(option(alloc, "boxes"))?
        .arg(option(alloc, "workers"))
}

// The number of an option, or its default.
fn option_number(
    matches: &ArgMatches<'_>,
    name: &str,
    default: u32,
    low: u32,
    high: u32,
) -> Option<u32>
    requires low { low ≤ default }
    requires high { default ≤ high }
    requires digits { high ≤ 9999 }
    ensures is { result ≡ number_or default low high (first_value (found_of matches.now) name.now) }
    ensures range { IfSome result (λ n. (low ≤ n) × (n ≤ high)) }
{
    match matches.get_str(name) {
        Some(text) => number(text, low, high),
        None => Some(default),
    }
}

/// The options in what clap found, by the default and the most of the boxes.
pub fn options_in(matches: &ArgMatches<'_>, default: u32, most: u32) -> Option<Options>
    requires low { 1 ≤ default }
    requires high { default ≤ most }
    requires digits { most ≤ 9999 }
    ensures is { result ≡ options_from default most (first_value (found_of matches.now)) }
    ensures range { IfSome result (AreWithin most) }
{
    let rounds = option_number(matches, "rounds", 20, 1, 64)?;
    let depth = option_number(matches, "depth", 16, 0, 32)?;
    let boxes = option_number(matches, "boxes", default, 1, most)?;
    let workers = option_number(matches, "workers", 4, 1, 16)?;
    Some(Options {
        rounds: rounds as u8,
        depth: depth as u8,
        boxes,
        workers: workers as u8,
    })
}
