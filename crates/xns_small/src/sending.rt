//! Packets that go out.

ghost use Rattle.std.specs.Prelude.{◌≡◌, ◌≤◌, length, IfOk};
ghost use Rattle.xns_idp.specs.Packet.{most_data};
ghost use Rattle.xns_small.specs.Sending.{sent_packet as sent_packet_of};

use std::alloc::{AllocError, Global};
use xns_idp::{Address, Packet, encode};

/// The bytes of a summed packet with transport control 0.
pub(crate) fn sent_packet(
    alloc: Global,
    kind: u8,
    source: Address,
    target: Address,
    body: &[u8],
) -> Result<Vec<u8>, AllocError>
    requires { length body.now ≤ most_data }
    ensures { IfOk result (λ bytes. bytes.items ≡ sent_packet_of kind source target body.now) }
{
    let packet = Packet::new(kind, source, target, body);
    let mut bytes = Vec::new(alloc);
    encode(alloc, &packet, &mut bytes)?;
    Ok(bytes)
}
