// The words after `upgrade`.
ghost use Rattle.std.specs.Prelude.{◌≡◌, ◌≢◌, map, string_bytes, IfOk, IfErr, Some, None};
ghost use Rattle.command_line.specs.Upgrade.{asked_upgrade, upgrade_of};

use crate::names::two_names;
use crate::simple::WordsError;
use std::alloc::Global;

/// What `upgrade` is asked for.
#[derive(Clone, Copy, Debug)]
pub struct UpgradeRequest<'a> {
    /// The certificate's name; it isn't empty.
    pub cert: &'a str,
    /// The new certificate's name; it is neither empty nor the old one's.
    pub new: &'a str,
}

/// Reads the words after `upgrade`, by what clap states of a simple command: two names, of a
/// certificate and of a new one, of which none is empty and which aren't equal. `Usage` comes
/// exactly where they ask for nothing.
#[tactic(auto, unfolding(crate::specs::Upgrade::asked_upgrade))]
pub fn read_upgrade<'a>(
    alloc: Global,
    words: &'a [String],
) -> Result<UpgradeRequest<'a>, WordsError>
    ensures ok { IfOk result (λ r.
        asked_upgrade (map string_bytes words.entry.now) ≡ Some (upgrade_of r)) }
    ensures apart { IfOk result (λ r. r.cert.now ≢ r.new.now) }
    ensures usage { IfErr result (λ e. e ≡ WordsError.Usage
        → asked_upgrade (map string_bytes words.entry.now) ≡ None) }
{
    let names = two_names(alloc, "upgrade", "cert", "new", words)?;
    Ok(UpgradeRequest {
        cert: names.first,
        new: names.second,
    })
}
