//! A certificate, rewritten in version 2 under another name.
ghost use Rattle.std.specs.Prelude.{◌≡◌, ◌≢◌, ℕ, List, Some, OnErr, IfOk, IsErrOf};
ghost use Rattle.cert_bytes.specs.declared.item.Item.{Item};
ghost use Rattle.cert_upgrade.specs.Answers.{ComesOf, ComesOfAny, HasCauseOf, IsBroken, IsTaken};
ghost use Rattle.cert_upgrade.specs.Answers.{IsTakenInPart};
ghost use Rattle.cert_upgrade.specs.Items.{AreItemsOf};
ghost use Rattle.cert_upgrade.specs.declared.stop.UpgradeStop.TheVariants as UpgradeStop;

use crate::respell::{MOST, measure, respell};
use crate::stop::UpgradeStop;
use cert_bytes::{Reader, Seen, certificates_are_spelled_once};
use fx_edge::Folder;
use std::alloc::Global;
use whole_texts::pass_on;

// Reads the certificate and adds what its items spell in version 2 to the file of the new name. It
// answers how many steps and sections there are.
fn rewrite<F: Folder>(
    alloc: Global,
    folder: &mut F,
    cert: &str,
    new: &str,
) -> Result<Seen, UpgradeStop>
    requires apart { cert.now ≢ new.now }
    ensures ok { IfOk result (λ counts. IsTaken (F.told folder.old cert.now) counts
        (F.told folder.old new.now) (F.told folder.new new.now)) }
    ensures err { OnErr result (IsTakenInPart (F.told folder.old cert.now)
        (F.told folder.old new.now) (F.told folder.new new.now)) }
    // Bytes that spell items have no fault, and nothing is judged here but them.
    ensures sound { (all : List ℕ) → F.told folder.old cert.now ≡ Some all
        → (items : List Item) → AreItemsOf all items → IsBroken result }
    ensures short { ¬ (IsErrOf result UpgradeStop.NewTooLong) }
    ensures others { (other : List ℕ) → other ≢ new.now
        → F.told folder.new other ≡ F.told folder.old other }
    ensures reads { HasCauseOf UpgradeStop.ReadFailed (F.read_faults folder.old)
        (F.read_faults folder.new) result }
    ensures writes { HasCauseOf UpgradeStop.WriteFailed (F.write_faults folder.old)
        (F.write_faults folder.new) result }
{
    certificates_are_spelled_once();
    let mut reader = Reader::new(alloc, cert)?;
    let mut bytes = Vec::new(alloc);
    let mut seen = Seen::none();
    let mut ended = false;
    while !ended {
        let (next, last) = respell(&mut reader, folder, seen, &mut bytes)?;
        pass_on(folder, new, &mut bytes, last)?;
        seen = next;
        ended = last;
    }
    Ok(seen)
}

/// Rewrites a certificate in version 2 under another name, and answers how many steps and sections
/// it has. It is read to its end, then the new file is made, and it is read again and written.
/// Where the folder tells its bytes, the new file then holds exactly what its items spell, after a
/// failure what it held or a front of that; and it is what it was where the bytes have a fault or
/// the new spelling is too long. `ReadFailed` and `WriteFailed` come only where a read or a write
/// of the folder failed in this call, `OutOfMemory` only where memory runs out.
pub fn upgrade<F: Folder>(
    alloc: Global,
    folder: &mut F,
    cert: &str,
    new: &str,
) -> Result<Seen, UpgradeStop>
    requires apart { cert.now ≢ new.now }
    // What comes of the certificate's bytes, where they are told, and what the new file holds.
    ensures comes { (all : List ℕ) → F.told folder.old cert.now ≡ Some all
        → ComesOf all (F.told folder.old new.now) (F.told folder.new new.now) result }
    // Whatever the bytes are, it holds what it held, or what some certificate spells in version 2.
    ensures any { ComesOfAny (F.told folder.old new.now) (F.told folder.new new.now) result }
    ensures others { (other : List ℕ) → other ≢ new.now
        → F.told folder.new other ≡ F.told folder.old other }
    ensures reads { HasCauseOf UpgradeStop.ReadFailed (F.read_faults folder.old)
        (F.read_faults folder.new) result }
    ensures writes { HasCauseOf UpgradeStop.WriteFailed (F.write_faults folder.old)
        (F.write_faults folder.new) result }
{
    let (_, length) = measure(alloc, folder, cert)?;
    let too_long = length > MOST;
    if too_long {
        return Err(UpgradeStop::NewTooLong);
    }
    folder.fresh(new)?;
    rewrite(alloc, folder, cert, new)
}
