//! The side that asks by Echo (XSIS 028112, Echo Protocol).

ghost use Rattle.std.specs.Prelude.{◌≡◌, ◌≢◌, ◌+◌, ℕ, drop, length, true, MatchOption, Ok};
ghost use Rattle.xns_idp.specs.Packet.{PacketModel, packet_model};
ghost use Rattle.xns_idp.specs.Reading.{packet_of};
ghost use Rattle.xns_small.specs.Echo.{echo_of};
ghost use Rattle.xns_c.specs.Echo.{WritesEchoRequest, IsEchoed, IsEchoedIn};
ghost use Rattle.xns_c.specs.Results.{ok, nothing};
ghost use Rattle.xns_c.specs.Structs.{address_of_struct};

use crate::address::XnsAddress;
use crate::results::{NO_MEMORY, NOTHING, OK, SHORT_BUFFER, TOO_LONG};
use crate::sending::{packet_size, put_packet};
use std::alloc::Global;
use xns_idp::packet_type::ECHO;
use xns_idp::{HEADER_BYTES, Packet, decode};
use xns_small::{Echo, read_echo, write_echo};

/// An Echo packet has so many bytes before those that are echoed.
const BEFORE_DATA: usize = 2;

/// At most so many bytes are echoed.
const MOST_ECHOED: usize = 544;

/// Puts an Echo request with these bytes to the front of the buffer (XSIS 028112, Echo Protocol).
///
/// `TOO_LONG` for more than 544 bytes; else `SHORT_BUFFER`, and `written` is then how many bytes are needed; else `NO_MEMORY` where memory
/// is refused.
#[unsafe(no_mangle)]
pub extern "C" fn xns_echo_request(
    alloc: Global,
    own: &XnsAddress,
    target: &XnsAddress,
    bytes: &[u8],
    buffer: &mut [u8],
    written: &mut usize,
) -> u32
    ensures { WritesEchoRequest (address_of_struct own.now) (address_of_struct target.now) bytes.now buffer.old buffer.new written.old written.new result }
{
    if bytes.len() > MOST_ECHOED {
        return TOO_LONG;
    }
    let needed = packet_size(BEFORE_DATA + bytes.len());
    if buffer.len() < needed {
        *written = needed;
        return SHORT_BUFFER;
    }
    let echo = Echo {
        reply: false,
        body: bytes,
    };
    let mut body = Vec::new(alloc);
    match write_echo(alloc, &echo, &mut body) {
        Ok(()) => {
            *written = put_packet(
                ECHO,
                own.address(),
                target.address(),
                body.as_slice(),
                buffer,
            );
            OK
        }
        Err(_) => NO_MEMORY,
    }
}

/// How many bytes a reply echoes, if the packet is an Echo reply from `target`.
#[tactic(auto, unfolding(xns_small::specs::Echo::echo_of))]
fn echoed_length(target: &XnsAddress, packet: &Packet<'_>) -> Option<usize>
    ensures { MatchOption result (IsEchoed (address_of_struct target.now) (packet_model packet.now) → ⊥)
        (λ n. IsEchoed (address_of_struct target.now) (packet_model packet.now) × (BEFORE_DATA + n ≡ length packet.now.body.now)) }
{
    if packet.kind != ECHO || packet.source.socket != target.socket {
        return None;
    }
    if packet.source.host != target.host && !target.address().is_broadcast() {
        return None;
    }
    replied_length(packet.body)
}

/// How many bytes a reply echoes.
#[tactic(auto, unfolding(xns_small::specs::Echo::echo_of))]
fn replied_length(body: &[u8]) -> Option<usize>
    ensures { MatchOption result (echo_of body.now ≢ Ok (record { reply = true; body = drop 2 body.now }))
        (λ n. (echo_of body.now ≡ Ok (record { reply = true; body = drop 2 body.now })) × (BEFORE_DATA + n ≡ length body.now)) }
{
    let echo = read_echo(body).ok()?;
    if !echo.reply {
        return None;
    }
    Some(echo.body.len())
}

/// Whether the bytes are an Echo reply from `target`, and where the bytes that it echoes stand in them. Network numbers are not compared;
/// where `target` is the broadcast host, the reply comes from any host (XSIS 028112, Echo Protocol).
///
/// `NOTHING` where they are not.
#[unsafe(no_mangle)]
pub extern "C" fn xns_echo_accept(
    target: &XnsAddress,
    bytes: &[u8],
    body_at: &mut usize,
    body_length: &mut usize,
) -> u32
    ensures accepted { (x : PacketModel × ℕ) → packet_of bytes.now ≡ Ok x → IsEchoed (address_of_struct target.now) x.0 → result ≡ ok }
    ensures reply { result ≡ ok → IsEchoedIn (address_of_struct target.now) bytes.now body_at.new body_length.new }
    ensures nothing { result ≢ ok → result ≡ nothing }
    ensures unchanged { result ≢ ok → (body_at.new ≡ body_at.old) × (body_length.new ≡ body_length.old) }
{
    let Ok((packet, _)) = decode(bytes) else {
        return NOTHING;
    };
    let Some(length) = echoed_length(target, &packet) else {
        return NOTHING;
    };
    *body_at = HEADER_BYTES + BEFORE_DATA;
    *body_length = length;
    OK
}
