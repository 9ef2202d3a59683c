//! An endpoint that C holds by its handle.

ghost use Rattle.std.specs.Prelude.{◌≡◌, ◌≢◌, ◌⊎◌, ◌<◌, ◌≤◌, ℕ, List, [], ◌∷◌, length, IfSome, Some, None};
ghost use Rattle.xns_spp.specs.Ends.{most_pending};
ghost use Rattle.xns_spp.specs.Held.{StandsFor};
ghost use Rattle.xns_spp.specs.Sending.{flush_answer, after_flush, tick_answer, after_tick};
ghost use Rattle.xns_spp.specs.State.{State, initiator_state, responder_state};
ghost use Rattle.xns_c.specs.Endpoints.{HandsUpToBuffer, TakesPacket};
ghost use Rattle.xns_c.specs.Given.{IsPut, IsPutIfThere};
ghost use Rattle.xns_c.specs.Handle.{kept_endpoint_of};
ghost use Rattle.xns_c.specs.KeptEndpoint.{Accepts, KeepsEndpoint, Makes, waiting_packets};
ghost use Rattle.xns_c.specs.Owned.{Changes};
ghost use Rattle.xns_c.specs.Results.{ok, nothing, no_memory, no_endpoint, short_buffer, bad_argument, dropped_number};
ghost use Rattle.xns_c.specs.Structs.{address_of_struct, item_given};

use crate::address::XnsAddress;
use crate::connection::Connection;
use crate::flag::as_byte;
use crate::front::put_front;
use crate::handle::XnsEndpoint;
use crate::handling::Handle;
use crate::item::XnsItem;
use crate::received::XnsReceived;
use crate::results::{
    BAD_ARGUMENT, NO_ENDPOINT, NO_MEMORY, NOTHING, OK, SHORT_BUFFER, dropped_number,
};
use std::alloc::Global;
use xns_spp::{Bytes, Endpoint, MOST_BODY, MOST_PENDING};

/// A reply has so many bytes.
const REPLY: usize = 42;

/// Puts a new endpoint, or none, in the place of the one that a handle had.
fn fill(alloc: Global, handle: &mut XnsEndpoint, endpoint: Endpoint) -> u32
    ensures filled { (s : State) → result ≡ ok → StandsFor endpoint s → KeepsEndpoint (kept_endpoint_of handle.new) s }
    ensures packets { waiting_packets (kept_endpoint_of handle.new) ≡ [] }
    ensures memory { result ≢ ok → result ≡ no_memory }
    ensures none { result ≢ ok → kept_endpoint_of handle.new ≡ None }
{
    let _ = handle.take(alloc);
    match Box::new(alloc, Connection::new(alloc, endpoint)) {
        Ok(connection) => {
            handle.put(connection);
            OK
        }
        Err(_) => NO_MEMORY,
    }
}

/// Makes an endpoint that begins a connection, in the place of the one that the handle had, which is freed in any case.
///
/// `BAD_ARGUMENT` where `id` is 0, or `window` or `backlog` is not from 1 to 64; else `NO_MEMORY` where memory is refused. The handle
/// then has no endpoint.
#[unsafe(no_mangle)]
pub extern "C" fn xns_endpoint_new_initiator(
    alloc: Global,
    handle: &mut XnsEndpoint,
    own: &XnsAddress,
    id: u16,
    peer: &XnsAddress,
    window: usize,
    backlog: usize,
) -> u32
    ensures made { result ≡ ok → KeepsEndpoint (kept_endpoint_of handle.new) (initiator_state (address_of_struct own.now) id (address_of_struct peer.now) window backlog) }
    ensures packets { waiting_packets (kept_endpoint_of handle.new) ≡ [] }
    ensures bad { (id ≡ 0) ⊎ ((window < 1) ⊎ ((most_pending < window) ⊎ ((backlog < 1) ⊎ (most_pending < backlog))))
        → result ≡ bad_argument }
    ensures good { 0 < id → (1 ≤ window) × (window ≤ most_pending) → (1 ≤ backlog)
        × (backlog ≤ most_pending) → result ≢ ok → result ≡ no_memory }
    ensures none { result ≢ ok → kept_endpoint_of handle.new ≡ None }
{
    let _ = handle.take(alloc);
    if id == 0 || window == 0 || window > MOST_PENDING || backlog == 0 || backlog > MOST_PENDING {
        return BAD_ARGUMENT;
    }
    match Endpoint::initiator(alloc, own.address(), id, peer.address(), window, backlog) {
        Ok(endpoint) => fill(alloc, handle, endpoint),
        Err(_) => NO_MEMORY,
    }
}

/// Makes an endpoint that answers an opening packet of `peer`, whose identifier is `peer_id`; else as `xns_endpoint_new_initiator`.
///
/// `BAD_ARGUMENT` also where `peer_id` is 0.
#[unsafe(no_mangle)]
pub extern "C" fn xns_endpoint_new_responder(
    alloc: Global,
    handle: &mut XnsEndpoint,
    own: &XnsAddress,
    id: u16,
    peer: &XnsAddress,
    peer_id: u16,
    window: usize,
    backlog: usize,
) -> u32
    ensures made { result ≡ ok → KeepsEndpoint (kept_endpoint_of handle.new)
        (responder_state (address_of_struct own.now) id (address_of_struct peer.now) peer_id window backlog) }
    ensures packets { waiting_packets (kept_endpoint_of handle.new) ≡ [] }
    ensures bad { (id ≡ 0) ⊎ ((peer_id ≡ 0) ⊎ ((window < 1) ⊎ ((most_pending < window) ⊎ ((backlog < 1) ⊎ (most_pending < backlog)))))
        → result ≡ bad_argument }
    ensures good { 0 < id → 0 < peer_id → (1 ≤ window) × (window ≤ most_pending) → (1 ≤ backlog)
        × (backlog ≤ most_pending) → result ≢ ok → result ≡ no_memory }
    ensures none { result ≢ ok → kept_endpoint_of handle.new ≡ None }
{
    let _ = handle.take(alloc);
    if id == 0
        || peer_id == 0
        || window == 0
        || window > MOST_PENDING
        || backlog == 0
        || backlog > MOST_PENDING
    {
        return BAD_ARGUMENT;
    }
    match Endpoint::responder(
        alloc,
        own.address(),
        id,
        peer.address(),
        peer_id,
        window,
        backlog,
    ) {
        Ok(endpoint) => fill(alloc, handle, endpoint),
        Err(_) => NO_MEMORY,
    }
}

/// Frees the endpoint, if there is one. The handle then has none, and may be used again.
#[unsafe(no_mangle)]
pub extern "C" fn xns_endpoint_clear(alloc: Global, handle: &mut XnsEndpoint)
    ensures { kept_endpoint_of handle.new ≡ None }
{
    let _freed = handle.take(alloc);
}

/// Accepts an item, whose bytes are copied. `attention` and `last` are 0 for no.
///
/// `NO_ENDPOINT`; `TOO_LONG` for more than 534 bytes, which are not looked at; `NO_MEMORY` where memory is refused for them; else 0, or why
/// the item is refused. The endpoint is as it was, but after 0.
#[unsafe(no_mangle)]
pub extern "C" fn xns_endpoint_send(
    alloc: Global,
    handle: &mut XnsEndpoint,
    stream: u8,
    attention: u8,
    last: u8,
    body: &[u8],
) -> u32
    ensures { Changes (kept_endpoint_of handle.old) (kept_endpoint_of handle.new) no_endpoint result
        (λ k n. Accepts k n (item_given stream attention last body.now) result) }
{
    handle.change(alloc, NO_ENDPOINT, |connection| {
        connection.send(alloc, stream, attention, last, body)
    })
}

/// Hands up the next item, its bytes to the front of the buffer.
///
/// `SHORT_BUFFER` where the buffer has fewer than 534 bytes, whatever waits, and the item's length is then 534; else `NO_ENDPOINT`, or
/// `NOTHING` where none waits.
#[unsafe(no_mangle)]
pub extern "C" fn xns_endpoint_take(
    alloc: Global,
    handle: &mut XnsEndpoint,
    item: &mut XnsItem,
    buffer: &mut [u8],
) -> u32
    ensures { HandsUpToBuffer (kept_endpoint_of handle.old) (kept_endpoint_of handle.new) item.old item.new buffer.old buffer.new result }
{
    if buffer.len() < MOST_BODY {
        item.length = MOST_BODY;
        return SHORT_BUFFER;
    }
    let Some(mut connection) = handle.take(alloc) else {
        return NO_ENDPOINT;
    };
    let taken = connection.take();
    handle.put(connection);
    match taken {
        Some(taken) => {
            let mut length = 0;
            let _ = put_front(taken.body.as_slice(), buffer, &mut length);
            *item = XnsItem {
                stream: taken.stream,
                attention: as_byte(taken.attention),
                last: as_byte(taken.last),
                length,
            };
            OK
        }
        None => NOTHING,
    }
}

/// Puts a reply, if there is one, to the front of the buffer, and says how many bytes it has.
fn put_reply(buffer: &mut [u8], reply: &Option<Bytes>) -> usize
    ensures { IfSome reply.now (λ b. length b ≤ length buffer.old) → IsPutIfThere reply.now buffer.old buffer.new result }
{
    let mut length = 0;
    if let Some(reply) = reply {
        let _ = put_front(reply.as_slice(), buffer, &mut length);
    }
    length
}

/// Takes in the bytes of a packet, and puts the reply, where one is wanted, to the front of the buffer.
///
/// `SHORT_BUFFER` where the buffer has fewer than 42 bytes, whatever came, and `received.reply` is then 42; else `NO_ENDPOINT`; else
/// `NO_MEMORY` where memory is refused: the endpoint is then as it was, as if the packet were lost.
#[unsafe(no_mangle)]
pub extern "C" fn xns_endpoint_receive(
    alloc: Global,
    handle: &mut XnsEndpoint,
    bytes: &[u8],
    received: &mut XnsReceived,
    buffer: &mut [u8],
) -> u32
    ensures { TakesPacket (kept_endpoint_of handle.old) (kept_endpoint_of handle.new) bytes.now received.old received.new buffer.old buffer.new result }
{
    if buffer.len() < REPLY {
        received.reply = REPLY;
        return SHORT_BUFFER;
    }
    let Some(mut connection) = handle.take(alloc) else {
        return NO_ENDPOINT;
    };
    let before = connection.unacknowledged();
    let answer = connection.receive(alloc, bytes);
    let after = connection.unacknowledged();
    handle.put(connection);
    match answer {
        Ok(answer) => {
            *received = XnsReceived {
                took: answer.took,
                acknowledged: before.saturating_sub(after),
                reply: put_reply(buffer, &answer.reply),
                dropped: dropped_number(answer.dropped),
            };
            OK
        }
        Err(_) => NO_MEMORY,
    }
}

/// Makes the packets that may go out for the first time, which `xns_endpoint_next_packet` then gives. Packets that were not
/// fetched are let go, as if they were lost.
///
/// `NO_ENDPOINT`, or `NO_MEMORY` where memory is refused: all is then as it was.
#[unsafe(no_mangle)]
pub extern "C" fn xns_endpoint_flush(alloc: Global, handle: &mut XnsEndpoint) -> u32
    ensures { Changes (kept_endpoint_of handle.old) (kept_endpoint_of handle.new) no_endpoint result (Makes flush_answer after_flush result) }
{
    handle.change(alloc, NO_ENDPOINT, |connection| connection.flush(alloc))
}

/// Makes the packets that are to go out when time has passed; else as `xns_endpoint_flush`.
#[unsafe(no_mangle)]
pub extern "C" fn xns_endpoint_tick(alloc: Global, handle: &mut XnsEndpoint) -> u32
    ensures { Changes (kept_endpoint_of handle.old) (kept_endpoint_of handle.new) no_endpoint result (Makes tick_answer after_tick result) }
{
    handle.change(alloc, NO_ENDPOINT, |connection| connection.tick(alloc))
}

/// Puts the next packet that `xns_endpoint_flush` or `xns_endpoint_tick` made to the front of the buffer. Each is given once.
///
/// `NO_ENDPOINT`; `NOTHING` where there is none; `SHORT_BUFFER` where the packet is longer than the buffer, and `written` is then how long
/// it is.
#[unsafe(no_mangle)]
pub extern "C" fn xns_endpoint_next_packet(
    alloc: Global,
    handle: &mut XnsEndpoint,
    buffer: &mut [u8],
    written: &mut usize,
) -> u32
    ensures put { (p : List ℕ) (ps : List (List ℕ)) → waiting_packets (kept_endpoint_of handle.old) ≡ p ∷ ps → length p ≤ length buffer.old →
        (result ≡ ok) × (waiting_packets (kept_endpoint_of handle.new) ≡ ps) × IsPut p buffer.old buffer.new written.new }
    ensures short { (p : List ℕ) (ps : List (List ℕ)) → waiting_packets (kept_endpoint_of handle.old) ≡ p ∷ ps → length buffer.old < length p
        → (result ≡ short_buffer) × (written.new ≡ length p) }
    ensures nothing { (s : State) → KeepsEndpoint (kept_endpoint_of handle.old) s → waiting_packets (kept_endpoint_of handle.old) ≡ [] → result ≡ nothing }
    ensures stands { (s : State) → KeepsEndpoint (kept_endpoint_of handle.old) s → KeepsEndpoint (kept_endpoint_of handle.new) s }
    ensures none { kept_endpoint_of handle.old ≡ None → result ≡ no_endpoint }
    ensures unchanged { result ≢ ok → (kept_endpoint_of handle.new ≡ kept_endpoint_of handle.old) × (buffer.new ≡ buffer.old)
        × (result ≢ short_buffer → written.new ≡ written.old) }
{
    let Some(mut connection) = handle.take(alloc) else {
        return NO_ENDPOINT;
    };
    let result = connection.next_packet(buffer, written);
    handle.put(connection);
    result
}
