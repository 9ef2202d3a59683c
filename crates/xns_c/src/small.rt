//! Echo, Error and Packet Exchange.

ghost use Rattle.xns_c.specs.Complaints.{TellsError, WritesComplaint};
ghost use Rattle.xns_c.specs.Echo.{WritesEchoReply};
ghost use Rattle.xns_c.specs.Exchange.{TellsExchange, WritesExchange};
ghost use Rattle.xns_c.specs.Structs.{address_of_struct};

use crate::address::XnsAddress;
use crate::front::put_front;
use crate::results::{NO_MEMORY, NOTHING, SHORT, SHORT_BUFFER, TOO_LONG};
use crate::sending::{BEFORE_EXCHANGED, MOST_EXCHANGED};
use crate::told::tell_both;
use std::alloc::Global;
use xns_idp::decode;
use xns_small::{Exchange, answer_echo, complain, read_error, read_exchange, write_exchange};

/// Puts the answer to an Echo request to the front of the buffer (XSIS 028112, Echo Protocol).
///
/// `NOTHING` where the bytes are no request to `own`, or to its socket of the broadcast host; `NO_MEMORY`; `SHORT_BUFFER`, and `written`
/// is then how many bytes are needed.
#[unsafe(no_mangle)]
pub extern "C" fn xns_echo_reply(
    alloc: Global,
    own: &XnsAddress,
    bytes: &[u8],
    buffer: &mut [u8],
    written: &mut usize,
) -> u32
    ensures { WritesEchoReply (address_of_struct own.now) bytes.now buffer.old buffer.new written.old written.new result }
{
    let Ok((packet, _)) = decode(bytes) else {
        return NOTHING;
    };
    match answer_echo(alloc, own.address(), &packet) {
        Ok(Some(reply)) => put_front(reply.as_slice(), buffer, written),
        Ok(None) => NOTHING,
        Err(_) => NO_MEMORY,
    }
}

/// Puts an Error packet about the offending packet to the front of the buffer (XSIS 028112, Error Protocol).
///
/// `NOTHING` where one must not complain of the bytes; else `SHORT_BUFFER`, and `written` is then how many bytes are needed, or `NO_MEMORY`
/// where memory is refused.
#[unsafe(no_mangle)]
pub extern "C" fn xns_complain(
    alloc: Global,
    own: &XnsAddress,
    number: u16,
    parameter: u16,
    offending: &[u8],
    buffer: &mut [u8],
    written: &mut usize,
) -> u32
    ensures { WritesComplaint (address_of_struct own.now) number parameter offending.now buffer.old buffer.new written.old written.new result }
{
    match complain(alloc, own.address(), number, parameter, offending) {
        Ok(Some(bytes)) => put_front(bytes.as_slice(), buffer, written),
        Ok(None) => NOTHING,
        Err(_) => NO_MEMORY,
    }
}

/// Reads the data of an Error packet; what it quotes follows from byte 4 on. `SHORT` for fewer than 4 bytes.
#[tactic(auto, unfolding(xns_small::specs::ErrorReport::error_of))]
#[unsafe(no_mangle)]
pub extern "C" fn xns_error_read(body: &[u8], number: &mut u16, parameter: &mut u16) -> u32
    ensures { TellsError body.now (number.old, parameter.old) (number.new, parameter.new) result }
{
    let told = read_error(body).map(|report| (report.number, report.parameter));
    tell_both(told.ok(), SHORT, number, parameter)
}

/// Reads the data of a Packet Exchange packet; its own data follow from byte 6 on. `SHORT` for fewer than 6 bytes
/// (XSIS 028112, Packet Exchange Protocol).
#[tactic(auto, unfolding(xns_small::specs::Exchange::exchange_of))]
#[unsafe(no_mangle)]
pub extern "C" fn xns_exchange_read(body: &[u8], id: &mut u32, client: &mut u16) -> u32
    ensures { TellsExchange body.now (id.old, client.old) (id.new, client.new) result }
{
    let told = read_exchange(body).map(|exchange| (exchange.id, exchange.client));
    tell_both(told.ok(), SHORT, id, client)
}

/// Puts the data of a Packet Exchange packet to the front of the buffer.
///
/// `TOO_LONG` for more than 540 bytes; else `SHORT_BUFFER`, and `written` is then how many bytes are needed; else `NO_MEMORY` where memory
/// is refused.
#[unsafe(no_mangle)]
pub extern "C" fn xns_exchange_write(
    alloc: Global,
    id: u32,
    client: u16,
    bytes: &[u8],
    buffer: &mut [u8],
    written: &mut usize,
) -> u32
    ensures { WritesExchange id client bytes.now buffer.old buffer.new written.old written.new result }
{
    if bytes.len() > MOST_EXCHANGED {
        return TOO_LONG;
    }
    let needed = BEFORE_EXCHANGED + bytes.len();
    if buffer.len() < needed {
        *written = needed;
        return SHORT_BUFFER;
    }
    let exchange = Exchange {
        id,
        client,
        body: bytes,
    };
    let mut whole = Vec::new(alloc);
    match write_exchange(alloc, &exchange, &mut whole) {
        Ok(()) => put_front(whole.as_slice(), buffer, written),
        Err(_) => NO_MEMORY,
    }
}
