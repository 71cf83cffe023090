//! Items of a certificate, read in either version and spelled in version 2.
ghost use Rattle.std.specs.Prelude.{◌≡◌, ◌≤◌, ◌<◌, ◌^◌, ℕ, List, Some, Err, IfOk, IsErrOf, false};
ghost use Rattle.fx_edge.specs.OnlyReads.{OnlyReads};
ghost use Rattle.cert_bytes.specs.declared.item.Item.{Item};
ghost use Rattle.cert_bytes.specs.declared.fault.CertFault.{CertFault};
ghost use Rattle.cert_bytes.specs.declared.fault.Stop.TheVariants as CertStop;
ghost use Rattle.cert_bytes.specs.Pieces.{AgreesTold, cursor_of, name_of};
ghost use Rattle.cert_bytes.specs.Due.{is_end};
ghost use Rattle.cert_bytes.specs.ReadOut.{HasFault};
ghost use Rattle.cert_bytes.specs.Reading.{item_at};
ghost use Rattle.cert_bytes.specs.Styles.{seen_in};
ghost use Rattle.cert_bytes.specs.Spelling.{certificate_of};
ghost use Rattle.cert_bytes.specs.Calls.{ReadsOn};
ghost use Rattle.cert_upgrade.specs.Items.{AreItemsFor, Respells, CanRespell};
ghost use Rattle.cert_upgrade.specs.Spelled.{told_length};

use cert_bytes::{Item, Reader, Seen, Stop, certificates_are_spelled_once, item_fits, write_item2};
use fx_edge::Folder;
use std::alloc::Global;

/// As many bytes as a certificate may have.
pub(crate) const MOST: u64 = 1 << 44;

// Whether it is the end.
fn is_end(item: &Item) -> bool
    ensures { result ≡ is_end item.now }
{
    matches!(item, Item::End)
}

// Reads the next item and adds what it spells in version 2, where this was seen before it. It
// answers what is seen behind it, and whether it is the end.
pub(crate) fn respell<F: Folder>(
    reader: &mut Reader,
    folder: &mut F,
    seen: Seen,
    out: &mut Vec<u8>,
) -> Result<(Seen, bool), Stop>
    requires can_respell { CanRespell seen reader.old }
    requires agrees { AgreesTold (F.told folder.old reader.old.ahead.name) reader.old.ahead }
    ensures ok { IfOk result (λ r. Respells (F.told folder.old reader.old.ahead.name) reader.old
        reader.new seen r.0 r.1 out.old.items out.new.items) }
    ensures fault { (all : List ℕ) → F.told folder.old reader.old.ahead.name ≡ Some all
        → (f : CertFault) → IsErrOf result (CertStop.Fault f)
        → item_at reader.old.due (cursor_of all reader.old.ahead) ≡ Err f }
    ensures grows { IfOk result (λ r. r.1 ≡ false → reader.old.ahead.at < reader.new.ahead.at) }
    ensures reads_on { ReadsOn name_of (F.told folder.new) reader.old.ahead reader.new.ahead }
    ensures within { reader.new.ahead.at ≤ 2 ^ 44 }
    ensures only_reads { OnlyReads F.Folder folder.old folder.new (IsErrOf result CertStop.Failed) }
{
    let item = reader.next(folder)?;
    item_fits(&item);
    write_item2(&item, seen, out)?;
    Ok((seen.after(&item), is_end(&item)))
}

// What the certificate's items come to: how many steps and sections they have, and how many bytes
// they spell in version 2, as far as that is told from more than 2^44. It is read to its end.
pub(crate) fn measure<F: Folder>(
    alloc: Global,
    folder: &mut F,
    name: &str,
) -> Result<(Seen, u64), Stop>
    ensures ok { IfOk result (λ r. (items : List Item)
        × AreItemsFor (F.told folder.old name.now) items
        × (r.0 ≡ seen_in items) × (r.1 ≡ told_length (certificate_of items))) }
    ensures fault { (all : List ℕ) → F.told folder.old name.now ≡ Some all
        → (f : CertFault) → IsErrOf result (CertStop.Fault f) → HasFault all f }
    ensures only_reads { OnlyReads F.Folder folder.old folder.new (IsErrOf result CertStop.Failed) }
{
    certificates_are_spelled_once();
    let mut reader = Reader::new(alloc, name)?;
    let mut bytes = Vec::new(alloc);
    let mut seen = Seen::none();
    let mut length = 0u64;
    let mut ended = false;
    while !ended {
        bytes.clear();
        let (next, last) = respell(&mut reader, folder, seen, &mut bytes)?;
        length = length.saturating_add(bytes.len() as u64).min(MOST + 1);
        seen = next;
        ended = last;
    }
    Ok((seen, length))
}
