//! What an endpoint of a play does with the network.
//!
//! The only error is want of memory, where something is to be sent or kept. The network is then as it was. The endpoint is as it was too,
//! or it went on, and the packets that it sent are lost.

ghost use Rattle.std.specs.Prelude.{◌≡◌, ◌<◌, ◌⊎◌, length, slice_get, OnOk, OnErr, Some};
ghost use Rattle.xns_spp.specs.Held.{StandsFor};
ghost use Rattle.xns_spp.specs.Receiving.{NeedsMemory, after_receive};
ghost use Rattle.xns_spp.specs.Sending.{flush_answer, after_flush, tick_answer, after_tick};
ghost use Rattle.xns_spp.specs.State.{State};
ghost use Rattle.item_world.specs.declared.emitted.Emitted.{Emitted};
ghost use Rattle.item_world.specs.EndLaws.{EndLaws};
ghost use Rattle.item_world.specs.GoingOut.{GoesOut};
ghost use Rattle.item_world.specs.Landing.{landing};
ghost use Rattle.item_world.specs.Network.{IsEnd};
ghost use Rattle.item_world.specs.World.{World, marked_delivered, receives};

use crate::network::Network;
use crate::side::Side;
use std::alloc::{AllocError, Global};
use xns_spp::Endpoint;

/// Sends the items that may go out for the first time.
pub fn flush_end(
    alloc: Global,
    side: Side,
    endpoint: &mut Endpoint,
    network: &mut Network,
) -> Result<(), AllocError>
    ensures { GoesOut after_flush flush_answer side result endpoint.old endpoint.new network.old network.new }
{
    let packets = endpoint.flush(alloc)?;
    network.emit(side, packets)
}

/// Sends again the items that are not acknowledged, or asks the peer for a reply.
pub fn tick_end(
    alloc: Global,
    side: Side,
    endpoint: &mut Endpoint,
    network: &mut Network,
) -> Result<(), AllocError>
    ensures { GoesOut after_tick tick_answer side result endpoint.old endpoint.new network.old network.new }
{
    let packets = endpoint.tick(alloc)?;
    network.emit(side, packets)
}

/// Takes in a packet of the network, and sends the reply, if one is owed.
pub fn land(
    alloc: Global,
    side: Side,
    endpoint: &mut Endpoint,
    network: &mut Network,
    number: usize,
) -> Result<(), AllocError>
    requires { number < length network.old.packets }
    ensures stands { OnOk result (EndLaws → (w v : World) → IsEnd endpoint.old network.old w side → landing w number ≡ Some (side, v)
        → IsEnd endpoint.new network.new v side) }
    // The endpoint receives the packet wherever it lands, and whether the packet lives or not.
    ensures endpoint { OnOk result ((s : State) (x : Emitted) → StandsFor endpoint.old s → slice_get network.old.packets number ≡ Some x →
        StandsFor endpoint.new (after_receive s x.bytes)) }
    ensures network { OnOk result (EndLaws → (w : World) (x : Emitted) → IsEnd endpoint.old network.old w side →
        slice_get w.bag number ≡ Some x → IsEnd endpoint.new network.new (receives (marked_delivered w number x) side x.bytes) side) }
    ensures unchanged { OnErr result (network.new ≡ network.old) }
    ensures refused { OnErr result ((s : State) (x : Emitted) → StandsFor endpoint.old s → slice_get network.old.packets number ≡ Some x →
        StandsFor endpoint.new s ⊎ StandsFor endpoint.new (after_receive s x.bytes)) }
    ensures memory { OnErr result ((s : State) (x : Emitted) → StandsFor endpoint.old s → slice_get network.old.packets number ≡ Some x
        → NeedsMemory s x.bytes) }
{
    let received = endpoint.receive(alloc, network.bytes(number))?;
    network.deliver(side, number, received.took, received.reply)
}
