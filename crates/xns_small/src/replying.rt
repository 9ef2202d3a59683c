//! Makes the reply to an Echo request.

ghost use Rattle.std.specs.Prelude.{◌≡◌, ◌≢◌, ◌≤◌, drop, false, length, IfOk, OnErr, MatchOption, Ok};
ghost use Rattle.xns_idp.specs.Packet.{most_data, packet_model};
ghost use Rattle.xns_small.specs.Echo.{EchoModel, IsAnswered, echo_of, echo_reply};

use crate::echo::{Echo, read_echo, write_echo};
use crate::sending::sent_packet;
use std::alloc::{AllocError, Global};
use xns_idp::packet_type::ECHO;
use xns_idp::{Address, Packet};

/// Replies to an Echo request: returns the whole bytes of the reply, a summed packet from `own` to the request's source
/// with the request's bytes (XSIS 028112, Echo Protocol).
///
/// `None` means that no reply is owed: the packet is of another type, its body is no request, its target is another
/// socket, or another host and not the broadcast host. The only error is want of memory.
#[tactic(auto, unfolding(crate::specs::Echo::echo_reply))]
pub fn answer_echo(
    alloc: Global,
    own: Address,
    packet: &Packet<'_>,
) -> Result<Option<Vec<u8>>, AllocError>
    requires { length packet.now.body.now ≤ most_data }
    ensures answer { IfOk result (λ answer. MatchOption answer (IsAnswered own (packet_model packet.now) → ⊥)
        (λ reply. IsAnswered own (packet_model packet.now) × (reply.items ≡ echo_reply own (packet_model packet.now)))) }
    // Memory is refused only where a reply is owed.
    ensures memory { OnErr result (IsAnswered own (packet_model packet.now)) }
{
    let Some(echoed) = echoed_data(own, packet) else {
        return Ok(None);
    };
    let echo = Echo {
        reply: true,
        body: echoed,
    };
    let mut body = Vec::new(alloc);
    write_echo(alloc, &echo, &mut body)?;
    let reply = sent_packet(alloc, ECHO, own, packet.source, body.as_slice())?;
    Ok(Some(reply))
}

/// The bytes to echo, if the packet is a request to which a reply is owed.
fn echoed_data<'a>(own: Address, packet: &Packet<'a>) -> Option<&'a [u8]>
    ensures { MatchOption result (IsAnswered own (packet_model packet.now) → ⊥)
        (λ bytes. IsAnswered own (packet_model packet.now) × (bytes.now ≡ drop 2 packet.now.body.now)) }
{
    if packet.kind != ECHO || packet.target.socket != own.socket {
        return None;
    }
    if packet.target.host != own.host && !packet.target.is_broadcast() {
        return None;
    }
    requested_data(packet.body)
}

/// The bytes that a request asks to be echoed. `None` where the body is no request.
fn requested_data(body: &[u8]) -> Option<&[u8]>
    ensures { MatchOption result (echo_of body.now ≢ Ok (record { reply = false; body = drop 2 body.now }))
        (λ bytes. (echo_of body.now ≡ Ok (record { reply = false; body = drop 2 body.now })) × (bytes.now ≡ drop 2 body.now)) }
{
    let echo = read_echo(body).ok()?;
    if echo.reply {
        return None;
    }
    Some(echo.body)
}
