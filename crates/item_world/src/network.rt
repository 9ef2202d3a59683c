//! The network of a play: every packet that was ever sent between two ends.

ghost use Rattle.std.specs.Prelude.{◌≡◌, ◌≤◌, ◌<◌, ◌+◌, ◌^◌, ◌∷◌, ◌++◌, if◌then◌else◌, ℕ, [], map, length, Some, IsSome, OnOk, OnErr, IfOk};
ghost use Rattle.std.specs.Prelude.{IfSome, slice_get};
ghost use Rattle.std.specs.Vec.{vec_len, vec_capacity};
ghost use Rattle.std.specs.Option.{option_to_list};
ghost use Rattle.xns_spp.specs.Numbers.{most_items};
ghost use Rattle.xns_spp.specs.State.{State};
ghost use Rattle.item_world.specs.declared.emitted.Emitted.{Emitted};
ghost use Rattle.item_world.specs.Landing.{landing, end_reached};
ghost use Rattle.item_world.specs.Network.{count_of, moment_of, is_settled, AreRested, unsettled, IsNetwork};
ghost use Rattle.item_world.specs.World.{World, end_at, with_packets, moved, marked_delivered, has_passed, sender_and_bytes};

use crate::bag::Bag;
use crate::counts::Counts;
use crate::emitted::Emitted;
use crate::moment::Moment;
use crate::side::Side;
use std::alloc::{AllocError, Global};
use std::marker::Model;
use xns_spp::Bytes;

/// Every packet that was ever sent between two ends, in order, and how many items each end has taken from them.
#[derive(Drop)]
pub struct Network {
    packets: Vec<Emitted>,
    taken: Counts,
    /// How many packets at the front are known to be settled: each was delivered, or lives no longer.
    rested: usize,
}

impl Model for Network {
    ghost use Rattle.item_world.specs.NetworkModel.{NetworkModel};

    ghost Value = { NetworkModel };

    ghost view = { λ n. record { packets = n.packets.items; taken = n.taken; rested = n.rested } };
}

impl Network {
    /// A network over which nothing was sent yet.
    pub fn new(alloc: Global) -> Network
        ensures { (result.packets ≡ []) × (result.taken ≡ record { a = 0; b = 0 }) × (result.rested ≡ 0) }
    {
        Network {
            packets: Vec::new(alloc),
            taken: Counts { a: 0, b: 0 },
            rested: 0,
        }
    }

    /// Whether the packet of this number lives no longer.
    fn has_passed(&self, number: usize) -> bool
        requires { number < length self.now.packets }
        ensures { (w : World) (x : Emitted) → IsNetwork self.now w → slice_get w.bag number ≡ Some x → result ≡ has_passed w x }
    {
        let packet = &self.packets[number];
        let now = self.taken.moment(packet.side);
        packet.at.is_past(now.sender, now.receiver)
    }

    /// The end that the packet of this number comes to; `None` where there is no such packet, or where it lives no
    /// longer.
    pub fn lands_at(&self, number: usize) -> Option<Side>
        ensures lands { (w : World) → IsNetwork self.now w → result ≡ end_reached (landing w number) }
        ensures there { IfSome result (λ side. number < length self.now.packets) }
    {
        if number >= self.packets.len() || self.has_passed(number) {
            return None;
        }
        Some(self.packets[number].side.other())
    }

    /// The bytes of a packet.
    pub fn bytes(&self, number: usize) -> &[u8]
        requires { number < length self.now.packets }
        ensures { (x : Emitted) → slice_get self.now.packets number ≡ Some x → result.now ≡ x.bytes }
    {
        self.packets[number].bytes.as_slice()
    }

    /// Takes in these packets, which an end sends. The only error is want of memory, where there are packets; the network is then as it
    /// was.
    pub fn emit(&mut self, side: Side, packets: Vec<Bytes>) -> Result<(), AllocError>
        ensures unchanged { OnErr result (self.new ≡ self.old) }
        ensures memory { OnErr result (0 < length packets.items) }
        ensures sends { OnOk result ((w : World) (s : State) → IsNetwork self.old w → length s.taken ≡ length (end_at w side).taken
            → IsNetwork self.new (moved w side s packets.items)) }
    {
        let at = self.taken.moment(side);
        self.packets.reserve(packets.as_slice().len())?;
        append_all(&mut self.packets, side, at, packets);
        Ok(())
    }

    /// Notes that a packet was delivered to an end, which took so many items from the packet, and perhaps replies. The
    /// only error is want of memory, where there is a reply; the network is then as it was.
    pub fn deliver(
        &mut self,
        side: Side,
        number: usize,
        took: usize,
        reply: Option<Bytes>,
    ) -> Result<(), AllocError>
        requires { number < length self.old.packets }
        ensures unchanged { OnErr result (self.new ≡ self.old) }
        ensures memory { OnErr result (IsSome reply) }
        ensures delivers { OnOk result ((w : World) (x : Emitted) (s : State) → IsNetwork self.old w → slice_get w.bag number ≡ Some x
            → length s.taken ≤ most_items → length (end_at w side).taken + took ≡ length s.taken →
            IsNetwork self.new (moved (marked_delivered w number x) side s (option_to_list reply))) }
    {
        let mut taken = self.taken;
        taken.add(side, took);
        append(&mut self.packets, side, taken.moment(side), reply)?;
        self.packets[number].delivered = true;
        self.taken = taken;
        Ok(())
    }

    /// Whether nothing is left to be done with a packet: it was delivered, or it lives no longer.
    fn is_settled(&self, number: usize) -> bool
        requires { number < length self.now.packets }
        ensures { (w : World) (x : Emitted) → IsNetwork self.now w → slice_get w.bag number ≡ Some x → result ≡ is_settled w x }
    {
        self.packets[number].delivered || self.has_passed(number)
    }

    /// The number of the first packet that is not settled, or how many packets there are where all are settled.
    fn first_unsettled(&self) -> usize
        ensures { (w : World) → IsNetwork self.now w → AreRested result w }
    {
        for number in self.rested..self.packets.len() {
            if !self.is_settled(number) {
                return number;
            }
        }
        self.packets.len()
    }

    /// Lists the number of a packet, where the packet is not settled.
    fn list(&self, numbers: &mut Vec<usize>, number: usize) -> Result<(), AllocError>
        requires { number < length self.now.packets }
        ensures { OnOk result ((w : World) (x : Emitted) → IsNetwork self.now w → slice_get w.bag number ≡ Some x
            → numbers.new.items ≡ numbers.old.items ++ (if is_settled w x then [] else number ∷ [])) }
    {
        if !self.is_settled(number) {
            numbers.push(number)?;
        }
        Ok(())
    }

    /// The numbers of the packets that are not settled, in order. The only error is want of memory, where there are
    /// packets; with or without the error, the network stands for the world that it stood for.
    pub fn unsettled(&mut self, alloc: Global) -> Result<Vec<usize>, AllocError>
        ensures network { (w : World) → IsNetwork self.old w → IsNetwork self.new w }
        ensures memory { OnErr result (0 < length self.old.packets) }
        ensures numbers { IfOk result (λ v. (w : World) → IsNetwork self.old w → v.items ≡ unsettled w 0 w.bag) }
    {
        self.rested = self.first_unsettled();
        let mut numbers = Vec::new(alloc);
        for number in self.rested..self.packets.len() {
            self.list(&mut numbers, number)?;
        }
        Ok(numbers)
    }

    /// Every packet with its sender. The only error is want of memory, where there are packets.
    pub fn into_bag(self, alloc: Global) -> Result<Bag, AllocError>
        ensures memory { OnErr result (0 < length self.packets) }
        ensures bag { IfOk result (λ b. b ≡ map sender_and_bytes self.packets) }
    {
        let Network { packets, .. } = self;
        if packets.as_slice().is_empty() {
            return Ok(Bag::new(Vec::new(alloc)));
        }
        let packets = packets
            .into_iter()
            .map(|packet| (packet.side, packet.bytes));
        Ok(Bag::new(packets.collect(alloc)?))
    }
}

/// Appends packets of one moment to the packets before, which have room for them.
fn append_all(before: &mut Vec<Emitted>, side: Side, at: Moment, packets: Vec<Bytes>)
    requires { vec_len before.old + vec_len packets ≤ vec_capacity before.old }
    ensures { before.new.items ≡ with_packets before.old.items side at packets.items }
{
    for bytes in packets {
        before.push_reserved(Emitted::new(side, at, bytes));
    }
}

/// Appends a reply to the packets before, where there is one.
fn append(
    before: &mut Vec<Emitted>,
    side: Side,
    at: Moment,
    reply: Option<Bytes>,
) -> Result<(), AllocError>
    ensures items { OnOk result (before.new.items ≡ with_packets before.old.items side at (option_to_list reply)) }
    ensures len { vec_len before.old ≤ vec_len before.new }
    ensures unchanged { OnErr result (before.new.items ≡ before.old.items) }
    ensures memory { OnErr result (IsSome reply) }
{
    if let Some(bytes) = reply {
        before.push(Emitted::new(side, at, bytes))?;
    }
    Ok(())
}
