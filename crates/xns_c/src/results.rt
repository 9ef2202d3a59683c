//! The numbers that the exported functions return.

ghost use Rattle.std.specs.Prelude.{◌≡◌, ◌<◌};
ghost use Rattle.xns_c.specs.Results.{idp_fault_number, send_fault_number, dropped_number};

use xns_idp::IdpFault;
use xns_spp::{Dropped, SendFault};

/// What was asked for was done.
pub const OK: u32 = 0;

/// Nothing is there of what was asked for.
pub const NOTHING: u32 = 1;

/// Memory was refused, and nothing is changed.
pub const NO_MEMORY: u32 = 2;

/// The handle has no endpoint.
pub const NO_ENDPOINT: u32 = 3;

/// The buffer is too short.
pub const SHORT_BUFFER: u32 = 4;

/// An argument is not allowed.
pub const BAD_ARGUMENT: u32 = 5;

/// Fewer bytes than a header has.
pub const SHORT: u32 = 11;

/// More bytes of data than a packet carries.
pub const TOO_LONG: u32 = 21;

/// As many connections are there as the host may have.
pub const NO_SLOT: u32 = 27;

/// The conversation has stopped.
pub const STOPPED: u32 = 56;

/// A call waits for its answer, or the answer was not fetched.
pub const BUSY: u32 = 57;

/// The connection is closed, or closes.
pub const CLOSING: u32 = 58;

/// An attention item came, of which Courier has none.
pub const ATTENTION: u32 = 59;

/// The words end before the value does.
pub const TRUNCATED: u32 = 71;

/// The word of a boolean is neither 0 nor 1.
pub const NOT_BOOLEAN: u32 = 72;

/// The count of a sequence is over its maximum.
pub const OVER_MAXIMUM: u32 = 73;

/// The word of an enumeration, or the designator of a choice, is not listed.
pub const NOT_LISTED: u32 = 74;

/// Words are left behind the last value.
pub const LEFT_OVER: u32 = 75;

/// The handle has no host.
pub const NO_HOST: u32 = 81;

/// No connection has this number.
pub const NO_CONNECTION: u32 = 82;

/// Sixteen other sockets are served.
pub const TOO_MANY_SERVICES: u32 = 83;

/// The peer opened the connection: its side calls.
pub const PEER_CALLS: u32 = 84;

/// A connection is to the broadcast host, or from it.
pub const EVERY_HOST: u32 = 85;

/// A connection is to socket 0, or from it.
pub const NO_SOCKET: u32 = 86;

/// A service is at Echo's socket.
pub const ECHO_SOCKET: u32 = 87;

/// The lowest version of a program that is to be served is above its highest.
pub const NO_VERSION: u32 = 88;

/// A text is no program of Courier's notation.
pub const WRONG_TEXT: u32 = 91;

/// Why bytes are no internet packet.
pub fn idp_fault_number(fault: IdpFault) -> u32
    ensures { result ≡ idp_fault_number fault }
{
    match fault {
        IdpFault::Short { have: _ } => SHORT,
        IdpFault::LengthSmall { length: _ } => 12,
        IdpFault::LengthLarge { length: _ } => 13,
        IdpFault::Cut { needed: _, have: _ } => 14,
        IdpFault::BadSum {
            found: _,
            computed: _,
        } => 15,
    }
}

/// Why an item is not accepted.
pub fn send_fault_number(fault: SendFault) -> u32
    ensures number { result ≡ send_fault_number fault }
    ensures large { 20 < result }
{
    match fault {
        SendFault::TooLong => TOO_LONG,
        SendFault::AttentionSize => 22,
        SendFault::Exhausted => 23,
        SendFault::Full => 24,
    }
}

/// Why a packet's item was neither taken nor kept, or 0.
pub fn dropped_number(dropped: Option<Dropped>) -> u32
    ensures { result ≡ dropped_number dropped }
{
    match dropped {
        None => 0,
        Some(Dropped::NotIdp) => 31,
        Some(Dropped::NotSpp) => 32,
        Some(Dropped::NotOurs) => 33,
        Some(Dropped::AheadOfUs) => 34,
        Some(Dropped::OutOfOrder) => 35,
        Some(Dropped::NoRoom) => 36,
        Some(Dropped::Repeat) => 37,
    }
}
