//! Texts of names.

ghost use Rattle.std.specs.Prelude.{◌≡◌, ◌<◌, IfOk, OnErr, length};
ghost use Rattle.std.specs.Str.{bytes_eq};
ghost use Rattle.courier_programs.specs.Scopes.{names_seen, name_text};

use std::alloc::{AllocError, Global};

/// Whether two names are the same; case counts.
pub(crate) fn is_same(a: &[u8], b: &[u8]) -> bool
    ensures { result ≡ bytes_eq a.now b.now }
{
    a == b
}

/// The text of the name of that index.
pub(crate) fn text(names: &[Vec<u8>], name: u32) -> &[u8]
    ensures { result.now ≡ name_text (names_seen names.now) name }
{
    match names.get(name as usize) {
        Some(bytes) => bytes,
        None => &[],
    }
}

/// A copy of the bytes. The only error is want of memory, where there are bytes.
pub(crate) fn copied(alloc: Global, bytes: &[u8]) -> Result<Vec<u8>, AllocError>
    ensures copy { IfOk result (λ copy. copy.items ≡ bytes.now) }
    ensures memory { OnErr result (0 < length bytes.now) }
{
    let mut copy = Vec::with_capacity(alloc, bytes.len())?;
    copy.extend_from_slice(bytes)?;
    Ok(copy)
}
