//! What the connections are found by.
ghost use Rattle.std.specs.Prelude.{◌≡◌};
ghost use Rattle.xns_dump.specs.Flows.Places.{IsPlace};
ghost use Rattle.xns_calls.specs.Keys.{IsFlow, connection_key, end_key, key_of_ends, mixed as mixed_of};

use crate::end_key::EndKey;
use xns_dump::flows::flow::Flow;
use xns_dump::flows::place::Place;

/// What a word is multiplied by to stand in the highest bits.
const TOP: u64 = 1 << 48;

/// The two ends of a connection as numbers. Both its flows have this key.
#[derive(Clone, Copy, PartialEq, Eq, PartialOrd, Ord)]
pub struct ConnectionKey {
    /// The numbers of both ends in one, which is compared first: it differs between nearly all connections.
    pub mixed: u64,
    /// Host and socket of the end that stands first in the order of ends. With the rest they tell those of the other end.
    pub lesser: u64,
    /// The identifier of that end.
    pub lesser_identifier: u16,
    /// The identifier of the other end.
    pub greater_identifier: u16,
}

impl ConnectionKey {
    /// The key of the connection of a flow.
    pub fn of(flow: Flow) -> ConnectionKey
        ensures key { result ≡ connection_key flow }
        ensures formed { IsFlow flow }
    {
        let source = end_key_of(flow.source);
        let target = end_key_of(flow.target);
        if source > target {
            ConnectionKey::of_ends(target, source)
        } else {
            ConnectionKey::of_ends(source, target)
        }
    }

    /// The key of two ends, the lesser first.
    fn of_ends(lesser: EndKey, greater: EndKey) -> ConnectionKey
        ensures { result ≡ key_of_ends lesser greater }
    {
        ConnectionKey {
            mixed: mixed(lesser, greater),
            lesser: lesser.host_and_socket,
            lesser_identifier: lesser.identifier,
            greater_identifier: greater.identifier,
        }
    }
}

/// The numbers of two ends in one. It differs where the hosts, sockets or identifiers of one end alone differ.
fn mixed(a: EndKey, b: EndKey) -> u64
    ensures { result ≡ mixed_of a b }
{
    let identifiers = u64::from(a.identifier ^ b.identifier) * TOP;
    a.host_and_socket ^ b.host_and_socket ^ identifiers
}

/// The key of an end.
pub fn end_key_of(place: Place) -> EndKey
    ensures key { result ≡ end_key place }
    ensures formed { IsPlace place }
{
    EndKey {
        host_and_socket: place.host_and_socket(),
        identifier: place.identifier,
    }
}
