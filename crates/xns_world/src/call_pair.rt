//! The two ends of a play of calls, side by side.

ghost use Rattle.std.specs.Prelude.{◌≡◌, ◌<◌, length, map, OnOk, Some};
ghost use Rattle.courier_calls.specs.Calls.{seen_model};
ghost use Rattle.courier_calls.specs.Server.{call_of};
ghost use Rattle.xns_world.specs.CallPlay.{EndpointActs, IsCallPair, IsReady};
ghost use Rattle.xns_world.specs.CallWorld.{Parties, CallWorld, carried_at, seen_at, service_at, step};
ghost use Rattle.item_world.specs.Landing.{landing};
ghost use Rattle.xns_world.specs.Settling.{stepped_out};
ghost use Rattle.item_world.specs.World.{flushes, ticks};

use crate::calling::CallingEnd;
use crate::serving::ServingEnd;
use courier_calls::{Call, Seen, Service};
use item_world::{Network, Side, flush_end, land, tick_end};
use std::alloc::{AllocError, Global};

/// The two ends of a play of calls, the caller at A and the server at B.
///
/// The ends are of two types, so each method here chooses between them; code that uses these methods is written once for either side.
#[derive(Drop)]
pub struct CallPair<'a, S: Service> {
    pub a: CallingEnd<'a>,
    pub b: ServingEnd<'a, S>,
}

impl<'a, S: Service> CallPair<'a, S> {
    /// Lets the end at this side take steps until none applies.
    pub fn step_out(&mut self, alloc: Global, calls: &[Call], side: Side) -> Result<(), AllocError>
        ensures { OnOk result ((p : Parties S) (w : CallWorld) → IsReady S.serving calls.now p w → IsCallPair p self.old w
            → IsCallPair p self.new (stepped_out (step p side) w)) }
    {
        match side {
            Side::A => self.a.step_out::<S>(alloc, calls),
            Side::B => self.b.step_out(alloc),
        }
    }

    /// Sends the items that may go out for the first time at this side.
    pub fn flush(
        &mut self,
        alloc: Global,
        side: Side,
        network: &mut Network,
    ) -> Result<(), AllocError>
        ensures { OnOk result (EndpointActs self.old self.new network.old network.new side (λ w v. flushes w side ≡ v)) }
    {
        match side {
            Side::A => flush_end(alloc, Side::A, &mut self.a.endpoint, network),
            Side::B => flush_end(alloc, Side::B, &mut self.b.endpoint, network),
        }
    }

    /// Sends again the items of this side that are not acknowledged, or asks the peer for a reply.
    pub fn tick(
        &mut self,
        alloc: Global,
        side: Side,
        network: &mut Network,
    ) -> Result<(), AllocError>
        ensures { OnOk result (EndpointActs self.old self.new network.old network.new side (λ w v. ticks w side ≡ v)) }
    {
        match side {
            Side::A => tick_end(alloc, Side::A, &mut self.a.endpoint, network),
            Side::B => tick_end(alloc, Side::B, &mut self.b.endpoint, network),
        }
    }

    /// Takes in a packet of the network at this side, and sends the reply, if one is owed.
    pub fn land(
        &mut self,
        alloc: Global,
        side: Side,
        network: &mut Network,
        number: usize,
    ) -> Result<(), AllocError>
        requires { number < length network.old.packets }
        ensures { OnOk result (EndpointActs self.old self.new network.old network.new side (λ w v. landing w number ≡ Some (side, v))) }
    {
        match side {
            Side::A => land(alloc, Side::A, &mut self.a.endpoint, network, number),
            Side::B => land(alloc, Side::B, &mut self.b.endpoint, network, number),
        }
    }

    /// The calls that were decided, the outcomes that were seen, and the service as the calls left it.
    pub fn into_parts(self) -> (Vec<Call>, Vec<Seen>, S)
        ensures carried { (p : Parties S) (w : CallWorld) → IsCallPair p self.entry w → result.0.items ≡ map call_of (carried_at w) }
        ensures seen { (p : Parties S) (w : CallWorld) → IsCallPair p self.entry w → map seen_model result.1.items ≡ seen_at p w }
        ensures service { (p : Parties S) (w : CallWorld) → p.serving ≡ S.serving → IsCallPair p self.entry w → result.2 ≡ service_at p w }
    {
        let CallPair { a, b } = self;
        let (carried, service) = b.into_parts();
        (carried, a.into_seen(), service)
    }
}
