// The worked certificate of `docs/FORMATS.md`, whole and damaged.
ghost use Rattle.std.specs.Prelude.{◌≤◌};

use fx_edge::MemFolder;
use std::alloc::{AllocError, Global};

/// The certificate of the product of x in [1, 2] and y in [3, 5].
pub const WHOLE: [u8; 143] = [
    0x46, 0x58, 0x50, 0x43, 1, 0, 3, // the head, three nodes
    0, 0, 0, 0, 0, 1, 5, 0, 0, 0, 1, // x, y, x * y
    0, 0, // no marks
    1, 0x64, 0, 0, 1, 0, 0, // step 0: x in [1, 2], a hypothesis
    0, 0, 0, 0, 0, 0, 0, 0, 1, 0, 0, 0, 0, 0, 0, 0, 0, 0, 0, 1, 0, 1, 0, 0, 0, //
    1, 0x64, 0, 1, 1, 0, 1, // step 1: y in [3, 5]
    0, 0, 0, 0, 0, 0, 0, 0, 3, 0, 0, 0, 0, 0, 0, 0, 0, 0, 0, 5, 0, 0, 0, 0, 0, //
    1, 6, 0, 0, 1, 0, 2, // step 2: x * y in [3, 10], by 0 and 1
    0, 0, 0, 0, 0, 0, 0, 0, 3, 0, 0, 0, 0, 0, 0, 0, 0, 0, 0, 5, 0, 1, 0, 0, 2, //
    0, 0, 0, 0, 0, 0, 0, 0, 0, 0, 0, 0, 0, 0, 0, 1, //
    3, 0, 1, 0, 0, 0, 0, 0, 0, 0, 2, // the leaf, by step 2
];

/// Its bytes before `front`, the piece, and its bytes from `back` on.
pub fn edited(
    alloc: Global,
    front: usize,
    piece: &[u8],
    back: usize,
) -> Result<Vec<u8>, AllocError> {
    let mut bytes = WHOLE[..front.min(143)].to_vec(alloc)?;
    bytes.extend_from_slice(piece)?;
    bytes.extend_from_slice(&WHOLE[back.min(143)..])?;
    Ok(bytes)
}

/// The certificate with one bit turned, of 1,144. The low bit of a byte comes first.
pub fn turned(alloc: Global, bit: usize) -> Result<Vec<u8>, AllocError> {
    let mut bytes = WHOLE.to_vec(alloc)?;
    let at = bit / 8;
    if at < bytes.len() {
        bytes[at] ^= 1u8 << (bit % 8);
    }
    Ok(bytes)
}

/// A folder with these bytes under "c", which gives `most` of them a read, and fails at these
/// reads.
pub fn folder_of(
    alloc: Global,
    bytes: &[u8],
    failing: &[u64],
    most: usize,
) -> Result<MemFolder, AllocError>
    requires { 1 ≤ most }
{
    let mut files = Vec::new(alloc);
    files.push((String::from_str(alloc, "c")?, bytes.to_vec(alloc)?))?;
    MemFolder::new(alloc, files, failing.to_vec(alloc)?, 0, most)
}
