//! Addresses: a network, a host and a socket.

ghost use Rattle.std.specs.Prelude.{◌≡◌, ◌↔◌, IsTrue};

use crate::known::{known_bytes, known_long, known_word};

/// The broadcast host, which is every host (XSIS 028112, Internet Datagram Protocol, Network Addresses).
const BROADCAST: [u8; 6] = [255; 6];

/// Where a packet goes to or comes from (XSIS 028112, Internet Datagram Protocol, Network Addresses).
#[derive(Clone, Copy, Debug, PartialEq, Eq)]
pub struct Address {
    /// The network number, of 32 bits; 0 is an unknown network.
    pub network: u32,
    /// The host number, of 48 bits, its highest byte first; six bytes of 255 are the broadcast host, which is every host.
    pub host: [u8; 6],
    /// The socket number, of 16 bits: who on that host is meant.
    pub socket: u16,
}

impl Address {
    ghost use Rattle.std.specs.Str.{bytes_eq};
    ghost use Rattle.xns_idp.specs.Packet.{IsAddress, address_bytes, broadcast, same_place};

    /// Whether the address names the broadcast host.
    pub fn is_broadcast(&self) -> bool
        ensures { IsTrue result ↔ (self.now.host ≡ broadcast) }
    {
        self.host == BROADCAST
    }

    /// Whether both addresses name one host and one socket. Networks are not compared.
    #[inline(always)]
    pub fn is_same_place(&self, other: &Address) -> bool
        ensures { result ≡ same_place self.now other.now }
    {
        self.is_same_host(other) && self.socket == other.socket
    }

    /// Whether both addresses name one host. The bytes are compared one by one: the function that compares arrays would
    /// keep both addresses in memory.
    #[inline(always)]
    pub fn is_same_host(&self, other: &Address) -> bool
        ensures { result ≡ bytes_eq self.now.host other.now.host }
    {
        let (ours, theirs) = (self.host, other.host);
        (ours[0] == theirs[0])
            & (ours[1] == theirs[1])
            & (ours[2] == theirs[2])
            & (ours[3] == theirs[3])
            & (ours[4] == theirs[4])
            & (ours[5] == theirs[5])
    }

    /// Does nothing; says to a proof that the numbers of an address are within their types' bounds.
    pub fn known(&self)
        ensures { IsAddress self.now }
    {
        known_long(self.network);
        known_word(self.socket);
        known_bytes(&self.host);
    }

    /// The twelve bytes of an address in a header.
    pub(crate) fn to_bytes(&self) -> [u8; 12]
        ensures { result ≡ address_bytes self.now }
    {
        let [n0, n1, n2, n3] = self.network.to_be_bytes();
        let [h0, h1, h2, h3, h4, h5] = self.host;
        let [s0, s1] = self.socket.to_be_bytes();
        [n0, n1, n2, n3, h0, h1, h2, h3, h4, h5, s0, s1]
    }
}
