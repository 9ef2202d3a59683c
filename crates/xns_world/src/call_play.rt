//! Plays calls between two ends over a network.

ghost use Rattle.std.specs.Prelude.{◌≡◌, ◌≤◌, length, map, All, OnOk, IfOk, fold};
ghost use Rattle.courier_calls.specs.Table.{table_model, IsCheckedTable};
ghost use Rattle.courier_calls.specs.Calls.{call_model, raw_call, seen_model, outcomes, CallFits};
ghost use Rattle.item_world.specs.declared.side.Side.{Side};
ghost use Rattle.item_world.specs.declared.side.Side.TheVariants.{A, B};
ghost use Rattle.item_world.specs.declared.event.Event.TheVariants.{Deliver, Rest, Tick, Foreign, Send, Take};
ghost use Rattle.xns_world.specs.CallPlay.{IsCallPlaying, IsReady, CallStepsBy, IsCallTrace, IsOnceInOrder, parties};
ghost use Rattle.xns_world.specs.CallProgress.{CarriesAll, CompletesByEvents};
ghost use Rattle.xns_world.specs.CallWorld.{Parties, CallWorld, call_start, call_happens, run_calls, call_delivers, settles};
ghost use Rattle.item_world.specs.Setup.{IsGood};
ghost use Rattle.xns_spp.specs.Growth.{Begins};

use crate::call_pair::CallPair;
use crate::call_trace::CallTrace;
use crate::calling::CallingEnd;
use crate::laws::calls::{laws_are_given, no_play_is_stuck};
use crate::serving::ServingEnd;
use courier_calls::{Call, Service, Table, known_calls};
use item_world::{Event, Network, Setup, Side};
use std::alloc::{AllocError, Global};

/// Two ends whose sessions carry calls, and the network between them.
#[derive(Drop)]
pub struct CallPlay<'a, S: Service> {
    ends: CallPair<'a, S>,
    network: Network,
}

impl<'a, S: Service> CallPlay<'a, S> {
    /// A play in which nothing has happened; no side has settled yet.
    fn new(
        alloc: Global,
        setup: &Setup,
        table: &'a Table,
        service: S,
    ) -> Result<CallPlay<'a, S>, AllocError>
        requires good { IsGood setup.now }
        requires listed { table_model table.now ≡ S.serving.table }
        requires checked { IsCheckedTable (table_model table.now) }
        requires state { S.IsServiceState service }
        ensures { IfOk result (λ play. (p : Parties S) → p.serving ≡ S.serving → p.service ≡ service
            → IsCallPlaying p play (call_start setup.now)) }
    {
        let b = ServingEnd::new(alloc, setup, table, service)?;
        let a = CallingEnd::new::<S>(alloc, setup, table)?;
        Ok(CallPlay {
            ends: CallPair { a, b },
            network: Network::new(alloc),
        })
    }

    /// Lets the end at this side settle.
    fn settle(&mut self, alloc: Global, calls: &[Call], side: Side) -> Result<(), AllocError>
        ensures { OnOk result (CallStepsBy S.serving calls.now self.old self.new (λ p w. settles p side w)) }
    {
        self.ends.step_out(alloc, calls, side)?;
        self.ends.flush(alloc, side, &mut self.network)
    }

    /// Delivers the packet of this number, where there is one that still lives.
    fn deliver(&mut self, alloc: Global, calls: &[Call], number: usize) -> Result<(), AllocError>
        ensures { OnOk result (CallStepsBy S.serving calls.now self.old self.new (λ p w. call_delivers p w number)) }
    {
        let Some(side) = self.network.lands_at(number) else {
            return Ok(());
        };
        self.ends.land(alloc, side, &mut self.network, number)?;
        self.settle(alloc, calls, side)
    }

    /// Delivers each packet that is there as the rest begins and was never delivered, in order.
    fn rest(&mut self, alloc: Global, calls: &[Call]) -> Result<(), AllocError>
        ensures { OnOk result (CallStepsBy S.serving calls.now self.old self.new (λ p w. call_happens p w Rest)) }
    {
        let numbers = self.network.unsettled(alloc)?;
        for number in numbers {
            self.deliver(alloc, calls, number)?;
        }
        Ok(())
    }

    fn tick(&mut self, alloc: Global, calls: &[Call], side: Side) -> Result<(), AllocError>
        ensures { OnOk result (CallStepsBy S.serving calls.now self.old self.new (λ p w. call_happens p w (Tick side))) }
    {
        self.ends.tick(alloc, side, &mut self.network)?;
        self.settle(alloc, calls, side)
    }

    /// Lets an event happen. Bytes from elsewhere change nothing: packets of the connection are passed over, and all
    /// other bytes are dropped. `Send` and `Take` change nothing: the sessions alone send and take items.
    fn happen(&mut self, alloc: Global, calls: &[Call], event: &Event) -> Result<(), AllocError>
        ensures { OnOk result (CallStepsBy S.serving calls.now self.old self.new (λ p w. call_happens p w event.now)) }
    {
        match event {
            Event::Deliver(number) => self.deliver(alloc, calls, *number),
            Event::Rest => self.rest(alloc, calls),
            Event::Tick(side) => self.tick(alloc, calls, *side),
            Event::Foreign(_, _) => Ok(()),
            Event::Send(_, _) => Ok(()),
            Event::Take(_) => Ok(()),
        }
    }

    /// Lets all these events happen in turn.
    fn happen_all(
        &mut self,
        alloc: Global,
        calls: &[Call],
        events: &[Event],
    ) -> Result<(), AllocError>
        ensures { OnOk result (CallStepsBy S.serving calls.now self.old self.new (λ p w. fold (call_happens p) w events.now)) }
    {
        for event in events {
            self.happen(alloc, calls, event)?;
        }
        Ok(())
    }

    /// Lets each side settle, and then lets all these events happen in turn.
    fn run(&mut self, alloc: Global, calls: &[Call], events: &[Event]) -> Result<(), AllocError>
        ensures { OnOk result (CallStepsBy S.serving calls.now self.old self.new
            (λ p w. fold (call_happens p) (settles p B (settles p A w)) events.now)) }
    {
        self.settle(alloc, calls, Side::A)?;
        self.settle(alloc, calls, Side::B)?;
        self.happen_all(alloc, calls, events)
    }

    /// The trace of the play in which both ends settle, and then all these events happen in turn.
    fn played(
        mut self,
        alloc: Global,
        calls: &[Call],
        events: &[Event],
    ) -> Result<CallTrace<S>, AllocError>
        ensures { IfOk result (λ t. (p : Parties S) (w : CallWorld) → IsReady S.serving calls.now p w → IsCallPlaying p self.entry w →
            IsCallTrace p t (fold (call_happens p) (settles p B (settles p A w)) events.now)) }
    {
        let ran = self.run(alloc, calls, events);
        let CallPlay { ends, network } = self;
        let (carried, seen, service) = ends.into_parts();
        ran?;
        let bag = network.into_bag(alloc)?;
        Ok(CallTrace {
            carried,
            seen,
            service,
            bag,
        })
    }
}

/// The play of these calls between two ends, the caller at A and the server at B.
///
/// Over every list of deliveries, losses, repeats and reorderings each call is carried out at most once and in order, and the k-th outcome
/// that the caller sees is the server's to its k-th call. No packet is delivered once an end has taken more than 30,000 further items
/// since it was sent. That any call is answered is not promised, since the network may lose every packet. But whatever happened, some
/// further ticks and deliveries of packets sent from then on finish all calls, where a connection carries all that they take (`finishes`).
/// An `Err` says that memory was refused, and gives no trace.
pub fn play_calls<S: Service>(
    alloc: Global,
    setup: &Setup,
    table: &Table,
    service: S,
    calls: &[Call],
    events: &[Event],
) -> Result<CallTrace<S>, AllocError>
    requires good { IsGood setup.now }
    requires listed { table_model table.now ≡ S.serving.table }
    requires checked { IsCheckedTable (table_model table.now) }
    requires state { S.IsServiceState service }
    requires fit { All (CallFits (table_model table.now)) (map call_model calls.now) }
    ensures trace { IfOk result (λ t. IsCallTrace (parties S.serving service calls.now) t
        (run_calls (parties S.serving service calls.now) setup.now events.now)) }
    ensures once { IfOk result (λ t. IsOnceInOrder S.serving service calls.now t) }
    ensures seen { IfOk result (λ t. Begins (map seen_model t.seen.items) (outcomes S.serving service (map raw_call calls.now))) }
    ensures fewer { IfOk result (λ t. length t.seen.items ≤ length t.carried.items) }
    ensures finishes { CarriesAll (parties S.serving service calls.now) → CompletesByEvents (parties S.serving service calls.now)
        (run_calls (parties S.serving service calls.now) setup.now events.now) }
{
    setup.known();
    known_calls(table, calls);
    laws_are_given::<S>();
    no_play_is_stuck::<S>();
    let play = CallPlay::new(alloc, setup, table, service)?;
    play.played(alloc, calls, events)
}
