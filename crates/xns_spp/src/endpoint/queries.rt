//! What an end tells its user about itself: no function here changes the end.

ghost use Rattle.std.specs.Prelude.{◌≡◌, ℕ, List, Ok, IfSome, option_copied};

use crate::endpoint::Endpoint;
use crate::item::Item;
use crate::near::nearest;
use crate::numbers::MOST_ITEMS;
use crate::packet::{SppPacket, read_packet};
use crate::role::Role;
use xns_idp::Address;

impl Endpoint {
    ghost use Rattle.xns_spp.specs.Ends.{is_open, is_ours_at};
    ghost use Rattle.xns_spp.specs.Held.{StandsFor};
    ghost use Rattle.xns_spp.specs.Item.{IsShortItem};
    ghost use Rattle.xns_spp.specs.Packet.{spp_packet_of};
    ghost use Rattle.xns_spp.specs.Receiving.{is_ours};
    ghost use Rattle.xns_spp.specs.Sending.{is_full, take_answer, waiting_count};
    ghost use Rattle.xns_spp.specs.State.{State};
    ghost use Rattle.xns_spp.specs.Telling.{is_out, out_count, own_name, peer_name, room_to_send, unacknowledged_count};

    /// Which end of the connection this is: the one that began it, or the one that was made from an opening packet.
    pub fn role(&self) -> Role
        ensures { result ≡ self.now.ends.role }
    {
        self.ends.role
    }

    /// The end's own address and connection identifier.
    pub fn own(&self) -> (Address, u16)
        ensures { (s : State) → StandsFor self.now s → result ≡ own_name s.ends }
    {
        (self.ends.own, self.ends.id)
    }

    /// The peer's address and connection identifier. `None` before the end is open.
    pub fn peer(&self) -> Option<(Address, u16)>
        ensures { (s : State) → StandsFor self.now s → result ≡ peer_name s.ends }
    {
        if self.ends.is_open() {
            Some((self.ends.peer, self.ends.peer_id))
        } else {
            None
        }
    }

    /// Whether the peer is known: of a responder always, of an initiator once it has read the peer's reply.
    pub fn is_open(&self) -> bool
        ensures { (s : State) → StandsFor self.now s → result ≡ is_open s.ends }
    {
        self.ends.is_open()
    }

    /// Whether `send` would refuse an item as `Exhausted` or `Full`.
    pub fn is_full(&self) -> bool
        ensures { (s : State) → StandsFor self.now s → result ≡ is_full s }
    {
        self.numbers.is_exhausted() || self.is_backlog_full()
    }

    /// How many more items `send` accepts whose packets `flush` then returns at once: as many as the backlog has left
    /// and the peer allows. There are none before the end is open.
    pub fn room_to_send(&self) -> usize
        ensures { (s : State) → StandsFor self.now s → result ≡ room_to_send s }
    {
        let left = self.ends.backlog - self.unacknowledged.len();
        let allowed = self.numbers.allowed.min(MOST_ITEMS);
        let more = allowed.saturating_sub(self.numbers.accepted);
        (left as u64).min(more) as usize
    }

    /// How many of the accepted items, sent or not, the peer has not acknowledged.
    pub fn unacknowledged(&self) -> usize
        ensures { (s : State) → StandsFor self.now s → result ≡ unacknowledged_count s }
    {
        self.unacknowledged.len()
    }

    /// How many items went out that the peer has not acknowledged.
    pub fn out_count(&self) -> u64
        ensures { (s : State) → StandsFor self.now s → result ≡ out_count s }
    {
        self.numbers.sent - self.numbers.acknowledged
    }

    /// How many items wait to be handed up. Early items are not among them: others are missing before them.
    pub fn waiting(&self) -> usize
        ensures { (s : State) → StandsFor self.now s → result ≡ waiting_count s }
    {
        (self.numbers.taken - self.numbers.handed) as usize
    }

    /// The item that `take` would hand up next, which stays where it is. `None` where none waits.
    ///
    /// With `first_waiting` a user who may not accept the item looks at it, and takes it only afterwards.
    pub fn first_waiting(&self) -> Option<&Item>
        ensures answer { (s : State) → StandsFor self.now s → option_copied result ≡ take_answer s }
        // The item has at most 534 bytes.
        ensures short { (s : State) → StandsFor self.now s → IfSome (option_copied result) IsShortItem }
    {
        if self.numbers.handed == self.numbers.taken {
            return None;
        }
        self.slots.get(0)?.as_ref()
    }

    /// Whether the bytes are a packet of the connection, which `receive` would not drop as `NotIdp`, `NotSpp` or `NotOurs`.
    pub fn is_ours(&self, bytes: &[u8]) -> bool
        ensures { (s : State) → StandsFor self.now s → result ≡ is_ours s bytes.now }
    {
        match read_packet(bytes) {
            Ok(packet) => self.is_packet_ours(&packet),
            Err(_) => false,
        }
    }

    /// Whether a packet that was read already belongs to the connection: `is_ours` returns the same for its bytes.
    #[inline(always)]
    pub fn is_packet_ours(&self, packet: &SppPacket) -> bool
        ensures packet { (s : State) → StandsFor self.now s → result ≡ is_ours_at s.ends packet.now }
        ensures bytes { (s : State) (b : List ℕ) → StandsFor self.now s → spp_packet_of b ≡ Ok packet.now → result ≡ is_ours s b }
    {
        self.ends.is_ours(packet)
    }

    /// Whether a sequence field can be that of a packet which this end sent lately: the packet of an item that is not
    /// acknowledged, or a system packet, which has the number of the first item that did not go out.
    ///
    /// With `is_out` a user can tell whether the packet that an Error packet quotes may be one of this connection.
    pub fn is_out(&self, sequence: u16) -> bool
        ensures { (s : State) → StandsFor self.now s → result ≡ is_out s sequence }
    {
        match nearest(self.numbers.sent, sequence) {
            Some(number) => self.numbers.acknowledged <= number && number <= self.numbers.sent,
            None => false,
        }
    }
}
