//! What a host refuses, whatever is there.

ghost use Rattle.std.specs.Prelude.{◌≡◌};
ghost use Rattle.std.specs.List.{list_any};
ghost use Rattle.xns_host.specs.Refusing.{has_no_version, is_every_host, wrong_ends};

use crate::host_fault::HostFault;
use courier_sessions::Program;
use xns_idp::Address;

/// The socket of the Echo protocol (XSIS 028112, Echo Protocol).
pub const ECHO_SOCKET: u16 = 2;

/// The broadcast host, which is every host (XSIS 028112, Internet Datagram Protocol, Network Addresses).
const EVERY_HOST: Address = Address {
    network: 0,
    host: [255; 6],
    socket: 0,
};

/// Whether an address is the broadcast host's.
fn is_every_host(address: &Address) -> bool
    ensures { result ≡ is_every_host address.now }
{
    address.is_same_host(&EVERY_HOST)
}

/// Why no connection is opened from an address of ours to a peer. `None`: it may be.
pub fn wrong_ends(own: &Address, peer: &Address) -> Option<HostFault>
    ensures { result ≡ wrong_ends own.now peer.now }
{
    if is_every_host(own) || is_every_host(peer) {
        return Some(HostFault::EveryHost);
    }
    if own.socket == 0 || peer.socket == 0 {
        return Some(HostFault::NoSocket);
    }
    None
}

/// Whether one of these programs has its lowest version above its highest.
pub fn lacks_version(programs: &[Program]) -> bool
    ensures { result ≡ list_any has_no_version programs.now }
{
    programs
        .iter()
        .any(|program| program.highest < program.lowest)
}
