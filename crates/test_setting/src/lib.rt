//! The setting of the worked examples: a caller and a server, and the packets that they begin with. The packets are by
//! hand from the standard, and their sums were checked by a separate program.
#![tactic(auto)]

ghost use Rattle.std.specs.Prelude.{◌<◌, ◌≤◌, IfOk};
ghost use Rattle.xns_spp.specs.Ends.{most_pending};
ghost use Rattle.xns_spp.specs.Held.{StandsFor};
ghost use Rattle.xns_spp.specs.State.{initiator_state, responder_state};

use item_world::Setup;
use std::alloc::{AllocError, Global};
use xns_idp::Address;
use xns_spp::{Bytes, Endpoint, Header, Item};

/// The asking host.
pub const CALLER: Address = Address {
    network: 1,
    host: [0, 0, 0xaa, 0, 3, 4],
    socket: 0x400,
};

/// The asked host, on the same network, at its Echo socket.
pub const ECHO_SERVER: Address = Address {
    host: [0, 0, 0xaa, 0, 1, 2],
    socket: 2,
    ..CALLER
};

/// The asked host, at a service's socket.
pub const SERVER: Address = Address {
    socket: 5,
    ..ECHO_SERVER
};

/// The caller's identifier of the connection.
pub const CALLER_ID: u16 = 0x1234;

/// The server's identifier of the connection.
pub const SERVER_ID: u16 = 0x5678;

/// The two ends of a connection.
pub const SETUP: Setup = Setup {
    a: CALLER,
    b: SERVER,
    a_id: CALLER_ID,
    b_id: SERVER_ID,
    window: 4,
    backlog: 16,
};

/// The two ends with the greatest window and backlog.
pub const WIDE_SETUP: Setup = Setup {
    window: 64,
    backlog: 64,
    ..SETUP
};

/// An Echo request from `CALLER` to `ECHO_SERVER`.
pub const ECHO_REQUEST: [u8; 34] = [
    0x53, 0x23, 0x00, 0x22, 0x00, 0x02, 0x00, 0x00, 0x00, 0x01, 0x00, 0x00, 0xaa, 0x00, 0x01, 0x02,
    0x00, 0x02, 0x00, 0x00, 0x00, 0x01, 0x00, 0x00, 0xaa, 0x00, 0x03, 0x04, 0x04, 0x00, 0x00, 0x01,
    0x48, 0x69,
];

/// The packet by which the caller opens the connection.
pub const OPENING: [u8; 42] = [
    0xcc, 0x1c, 0x00, 0x2a, 0x00, 0x05, 0x00, 0x00, 0x00, 0x01, 0x00, 0x00, 0xaa, 0x00, 0x01, 0x02,
    0x00, 0x05, 0x00, 0x00, 0x00, 0x01, 0x00, 0x00, 0xaa, 0x00, 0x03, 0x04, 0x04, 0x00, 0xc0, 0x00,
    0x12, 0x34, 0x00, 0x00, 0x00, 0x00, 0x00, 0x00, 0x00, 0x03,
];

/// The caller's first data packet.
pub const FIRST: [u8; 46] = [
    0xcf, 0x2a, 0x00, 0x2e, 0x00, 0x05, 0x00, 0x00, 0x00, 0x01, 0x00, 0x00, 0xaa, 0x00, 0x01, 0x02,
    0x00, 0x05, 0x00, 0x00, 0x00, 0x01, 0x00, 0x00, 0xaa, 0x00, 0x03, 0x04, 0x04, 0x00, 0x50, 0x00,
    0x12, 0x34, 0x56, 0x78, 0x00, 0x00, 0x00, 0x00, 0x00, 0x03, 0x00, 0x03, 0x00, 0x03,
];

/// The header of the first data packet.
pub const FIRST_HEADER: Header = Header {
    control: 0x50,
    stream: 0,
    source_id: CALLER_ID,
    target_id: SERVER_ID,
    sequence: 0,
    acknowledge: 0,
    allocation: 3,
};

/// The caller's end, which opens the connection.
pub fn caller(alloc: Global, window: usize, backlog: usize) -> Result<Endpoint, AllocError>
    requires window { (1 ≤ window) × (window ≤ most_pending) }
    requires backlog { (1 ≤ backlog) × (backlog ≤ most_pending) }
    ensures { IfOk result (λ end. StandsFor end (initiator_state CALLER CALLER_ID SERVER window backlog)) }
{
    Endpoint::initiator(alloc, CALLER, CALLER_ID, SERVER, window, backlog)
}

/// The server's end, which knows the caller's identifier.
pub fn server(alloc: Global, window: usize, backlog: usize) -> Result<Endpoint, AllocError>
    requires window { (1 ≤ window) × (window ≤ most_pending) }
    requires backlog { (1 ≤ backlog) × (backlog ≤ most_pending) }
    ensures { IfOk result (λ end. StandsFor end (responder_state SERVER SERVER_ID CALLER CALLER_ID window backlog)) }
{
    Endpoint::responder(alloc, SERVER, SERVER_ID, CALLER, CALLER_ID, window, backlog)
}

/// An item that ends a message.
pub fn item(alloc: Global, body: &[u8]) -> Result<Item, AllocError> {
    Ok(Item {
        stream: 0,
        attention: false,
        last: true,
        body: Bytes::new(body.to_vec(alloc)?),
    })
}

/// An item that ends a message, with this number in its body.
pub fn numbered(alloc: Global, number: u32) -> Result<Item, AllocError> {
    item(alloc, &number.to_be_bytes())
}
