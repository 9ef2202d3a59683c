//! Appends bytes to a vector, all or none.

ghost use Rattle.std.specs.Prelude.{◌≡◌, ◌+◌, ◌<◌, ◌≤◌, ◌^◌, ◌++◌, length, OnOk, OnErr, vec_len, vec_capacity};

use std::alloc::AllocError;

/// Appends the head and then the body; after an `Err` the vector is as it was.
pub(crate) fn append(out: &mut Vec<u8>, head: &[u8], body: &[u8]) -> Result<(), AllocError>
    requires { length head.now + length body.now < 2 ^ 16 }
    ensures ok { OnOk result (out.new.items ≡ out.old.items ++ (head.now ++ body.now)) }
    ensures err { OnErr result (out.new.items ≡ out.old.items) }
    ensures memory { OnErr result (vec_capacity out.old < vec_len out.old + (length head.now + length body.now)) }
    ensures room { vec_capacity out.old ≤ vec_capacity out.new }
{
    out.reserve(head.len() + body.len())?;
    out.extend_from_slice(head)?;
    out.extend_from_slice(body)
}
