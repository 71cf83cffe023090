// How long items are in version 2.
ghost use Rattle.std.specs.Prelude.{◌≡◌, IfOk};
ghost use Rattle.std.specs.List.{AllByRecursion};
ghost use Rattle.cert_bytes.specs.Certificates.{HasSpelling};
ghost use Rattle.cert_bytes.specs.Spelling.{certificate_of};
ghost use Rattle.cert_rewriting.specs.Spelled.{told_length};

use cert_bytes::{Item, Seen, write_item2};
use std::alloc::{AllocError, Global};

/// As many bytes as a certificate may have.
pub const MOST: u64 = 1 << 44;

/// How many bytes the items spell in version 2; of more than `MOST` it says `MOST + 1`. `Err` only
/// where memory runs out, which is asked for one item's spelling.
pub fn spelled_length(alloc: Global, items: &[Item]) -> Result<u64, AllocError>
    requires { AllByRecursion HasSpelling items.now }
    ensures { IfOk result (λ n. n ≡ told_length (certificate_of items.now)) }
{
    let mut piece = Vec::new(alloc);
    let mut seen = Seen::none();
    let mut length = 0u64;
    let mut left = items;
    while let [item, later @ ..] = left {
        piece.clear();
        write_item2(item, seen, &mut piece)?;
        length = length.saturating_add(piece.len() as u64).min(MOST + 1);
        seen = seen.after(item);
        left = later;
    }
    Ok(length)
}
