// Folders in memory, made of lists of names and bytes.
ghost use Rattle.std.specs.Prelude.{◌≤◌};

use fx_edge::MemFolder;
use std::alloc::{AllocError, Global};

/// The files, with texts of their own.
pub fn owned(alloc: Global, files: &[(&str, &[u8])]) -> Result<Vec<(String, Vec<u8>)>, AllocError> {
    let mut all = Vec::new(alloc);
    for (name, bytes) in files {
        all.push((String::from_str(alloc, *name)?, bytes.to_vec(alloc)?))?;
    }
    Ok(all)
}

/// A folder with these files, with room for so many bytes in each, which moves `most` of them a
/// call, and fails at these calls.
pub fn folder_of(
    alloc: Global,
    files: &[(&str, &[u8])],
    failing: &[u64],
    room: usize,
    most: usize,
) -> Result<MemFolder, AllocError>
    requires { 1 ≤ most }
{
    let files = owned(alloc, files)?;
    MemFolder::new(alloc, files, failing.to_vec(alloc)?, room, most)
}
