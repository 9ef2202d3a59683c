ghost use Rattle.std.specs.Prelude.{◌≡◌};
ghost use Rattle.xns_host.specs.Register.{peer_at};

use xns_idp::Address;

/// Who opened a connection, and where (XSIS 028112, Sequenced Packet Protocol, Connection Identifiers). Networks are no part of it.
#[derive(Clone, Copy, Debug, PartialEq, Eq, PartialOrd, Ord)]
pub struct Peer {
    pub host: [u8; 6],
    pub socket: u16,
    /// The peer's identifier.
    pub id: u16,
    /// The socket of ours to which it was opened.
    pub to: u16,
}

impl Peer {
    /// The peer at this address, with this identifier, at this socket of ours.
    pub fn at(address: &Address, id: u16, to: u16) -> Peer
        ensures { result ≡ peer_at address.now id to }
    {
        Peer {
            host: address.host,
            socket: address.socket,
            id,
            to,
        }
    }
}
