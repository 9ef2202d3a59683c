//! A play of items between two ends, over a network.

ghost use Rattle.std.specs.Prelude.{◌≡◌, ◌<◌, OnOk, IfOk, Some, fold};
ghost use Rattle.item_world.specs.declared.event.Event.TheVariants.{Deliver, Rest, Tick, Foreign, Send, Take};
ghost use Rattle.item_world.specs.Events.{delivers, happens, world_after, IsEvent};
ghost use Rattle.xns_spp.specs.Growth.{Begins};
ghost use Rattle.item_world.specs.Play.{IsPlaying, StepsBy, IsPlayed};
ghost use Rattle.item_world.specs.Progress.{FinishesByEvents};
ghost use Rattle.item_world.specs.Setup.{IsGood};
ghost use Rattle.item_world.specs.Trace.{item_trace};
ghost use Rattle.item_world.specs.World.{start, flushes};

use crate::ends::{flush_end, land, tick_end};
use crate::event::Event;
use crate::item_trace::ItemTrace;
use crate::laws::{end_laws_are_given, items_come_in_order, no_world_is_stuck};
use crate::network::Network;
use crate::pair::Pair;
use crate::participant::Participant;
use crate::setup::Setup;
use crate::side::Side;
use std::alloc::{AllocError, Global};
use xns_spp::Item;

/// Two ends and the network between them.
#[derive(Drop)]
pub struct Play {
    ends: Pair,
    network: Network,
}

impl Play {
    /// A play in which nothing has happened yet.
    fn new(alloc: Global, setup: &Setup) -> Result<Play, AllocError>
        requires { IsGood setup.now }
        ensures { IfOk result (λ p. IsPlaying p (start setup.now)) }
    {
        let a = setup.end(alloc, Side::A)?;
        let b = setup.end(alloc, Side::B)?;
        Ok(Play {
            ends: Pair {
                a: Participant::new(alloc, a),
                b: Participant::new(alloc, b),
            },
            network: Network::new(alloc),
        })
    }

    fn flush(&mut self, alloc: Global, side: Side) -> Result<(), AllocError>
        ensures { OnOk result (StepsBy self.old self.new (λ w. flushes w side)) }
    {
        flush_end(
            alloc,
            side,
            &mut self.ends.at(side).endpoint,
            &mut self.network,
        )
    }

    fn tick(&mut self, alloc: Global, side: Side) -> Result<(), AllocError>
        ensures { OnOk result (StepsBy self.old self.new (λ w. happens w (Tick side))) }
    {
        tick_end(
            alloc,
            side,
            &mut self.ends.at(side).endpoint,
            &mut self.network,
        )
    }

    /// Delivers the packet of this number, where there is one that still lives.
    fn deliver(&mut self, alloc: Global, number: usize) -> Result<(), AllocError>
        ensures { OnOk result (StepsBy self.old self.new (λ w. delivers w number)) }
    {
        let Some(side) = self.network.lands_at(number) else {
            return Ok(());
        };
        land(
            alloc,
            side,
            &mut self.ends.at(side).endpoint,
            &mut self.network,
            number,
        )?;
        self.flush(alloc, side)
    }

    /// Delivers these packets in turn.
    fn deliver_all(&mut self, alloc: Global, numbers: &[usize]) -> Result<(), AllocError>
        ensures { OnOk result (StepsBy self.old self.new (λ w. fold delivers w numbers.now)) }
    {
        for number in numbers {
            self.deliver(alloc, *number)?;
        }
        Ok(())
    }

    /// Delivers each packet that is there as the rest begins and was never delivered, in order.
    fn rest(&mut self, alloc: Global) -> Result<(), AllocError>
        ensures { OnOk result (StepsBy self.old self.new (λ w. happens w Rest)) }
    {
        let numbers = self.network.unsettled(alloc)?;
        self.deliver_all(alloc, numbers.as_slice())
    }

    /// Bytes from elsewhere come to an end. Bytes of the connection are passed over; the end drops all others, and does not reply.
    fn overhear(&mut self, alloc: Global, side: Side, bytes: &[u8]) -> Result<(), AllocError>
        ensures { OnOk result (StepsBy self.old self.new (λ w. happens w (Foreign side bytes.now))) }
    {
        let endpoint = &mut self.ends.at(side).endpoint;
        if !endpoint.is_ours(bytes) {
            endpoint.receive(alloc, bytes)?;
        }
        Ok(())
    }

    fn send(&mut self, alloc: Global, side: Side, item: &Item) -> Result<(), AllocError>
        ensures { OnOk result (StepsBy self.old self.new (λ w. happens w (Send side item.now))) }
    {
        self.ends.at(side).send(alloc, item)?;
        self.flush(alloc, side)
    }

    fn take(&mut self, side: Side) -> Result<(), AllocError>
        ensures { OnOk result (StepsBy self.old self.new (λ w. happens w (Take side))) }
    {
        self.ends.at(side).take()
    }

    fn happen(&mut self, alloc: Global, event: &Event) -> Result<(), AllocError>
        ensures goes { OnOk result (StepsBy self.old self.new (λ w. happens w event.now)) }
        ensures fits { OnOk result (IsEvent event.now) }
    {
        match event {
            Event::Deliver(number) => self.deliver(alloc, *number),
            Event::Rest => self.rest(alloc),
            Event::Tick(side) => self.tick(alloc, *side),
            Event::Foreign(side, bytes) => self.overhear(alloc, *side, bytes.as_slice()),
            Event::Send(side, item) => {
                item.known();
                self.send(alloc, *side, item)
            }
            Event::Take(side) => self.take(*side),
        }
    }
}

/// A play after these events.
fn played(alloc: Global, setup: &Setup, events: &[Event]) -> Result<Play, AllocError>
    requires { IsGood setup.now }
    ensures { IfOk result (λ p. IsPlayed p setup.now events.now) }
{
    end_laws_are_given();
    let mut play = Play::new(alloc, setup)?;
    for event in events {
        play.happen(alloc, event)?;
    }
    Ok(play)
}

/// The play of these events between two ends.
///
/// Over every list of deliveries, losses, repeats and reorderings, what either end hands up begins what the other sent.
/// No packet is delivered once an end has taken more than 30,000 further items since it was sent.
/// That anything arrives is not promised, since the network may lose every packet. But whatever happened, some further ticks, deliveries
/// of packets sent from then on, and takes hand up and acknowledge all that was accepted (`finishes`). An `Err` says that memory was
/// refused, and gives no trace.
pub fn play_items(alloc: Global, setup: &Setup, events: &[Event]) -> Result<ItemTrace, AllocError>
    requires { IsGood setup.now }
    ensures trace { IfOk result (λ t. t ≡ item_trace (world_after (start setup.now) events.now)) }
    ensures to_b { IfOk result (λ t. Begins t.b_handed t.a_sent) }
    ensures to_a { IfOk result (λ t. Begins t.a_handed t.b_sent) }
    ensures finishes { OnOk result (FinishesByEvents (world_after (start setup.now) events.now)) }
{
    setup.known();
    items_come_in_order();
    no_world_is_stuck();
    let Play {
        ends: Pair { a, b },
        network,
    } = played(alloc, setup, events)?;
    Ok(ItemTrace {
        a_sent: a.sent,
        b_sent: b.sent,
        a_handed: a.handed,
        b_handed: b.handed,
        bag: network.into_bag(alloc)?,
    })
}
