//! The caller's end in a play, which takes one step after another.

ghost use Rattle.std.specs.Prelude.{◌≡◌, ◌<◌, ◌==◌, ◌&&◌, nat_lt, length, [], map, OnOk, IfOk, slice_get, Some, None, true, false};
ghost use Rattle.std.specs.Prelude.{if◌then◌else◌};
ghost use Rattle.courier_calls.specs.Calls.{raw_call};
ghost use Rattle.courier_calls.specs.Table.{table_model, IsCheckedTable};
ghost use Rattle.item_world.specs.Setup.{IsGood};
ghost use Rattle.xns_spp.specs.Sending.{is_full, waiting_count};
ghost use Rattle.xns_spp.specs.declared.item.Item.{Item};
ghost use Rattle.item_world.specs.declared.side.Side.TheVariants.{A};
ghost use Rattle.xns_world.specs.CallLaws.{PartiesLaws};
ghost use Rattle.xns_world.specs.CallOrder.{CallsHold};
ghost use Rattle.xns_world.specs.CallPlay.{IsCalling};
ghost use Rattle.xns_world.specs.CallWorld.{Parties, CallWorld, next_out, sends_next, feeds_session, lists_outcome, makes, has_outcome, may_call};
ghost use Rattle.xns_world.specs.CallWorld.{caller_step, step, call_start};
ghost use Rattle.xns_world.specs.Settling.{stepped_out, Stepped};

use courier_calls::{Call, Caller, Seen, Service, Table};
use item_world::{Setup, Side};
use std::alloc::{AllocError, Global};
use xns_spp::{Endpoint, MOST_PENDING};

/// As many steps as a side can take: one for each item that there is room for, three at most for each that waits, and one call.
pub const MOST_STEPS: usize = 4 * MOST_PENDING + 1;

/// The caller's end in a play: its endpoint, its session, and the outcomes that were listed.
#[derive(Drop)]
pub struct CallingEnd<'a> {
    pub endpoint: Endpoint,
    pub caller: Caller<'a>,
    /// How many calls were made.
    pub made: usize,
    pub seen: Vec<Seen>,
}

impl<'a> CallingEnd<'a> {
    /// The end at A of this setup, before anything has happened; it has not settled.
    pub fn new<S: Service>(
        alloc: Global,
        setup: &Setup,
        table: &'a Table,
    ) -> Result<CallingEnd<'a>, AllocError>
        requires good { IsGood setup.now }
        requires listed { table_model table.now ≡ S.serving.table }
        requires checked { IsCheckedTable (table_model table.now) }
        ensures { IfOk result (λ e. (p : Parties S) → p.serving ≡ S.serving → IsCalling p e (call_start setup.now)) }
    {
        let endpoint = setup.end(alloc, Side::A)?;
        let caller = Caller::new(alloc, table)?;
        Ok(CallingEnd {
            endpoint,
            caller,
            made: 0,
            seen: Vec::new(alloc),
        })
    }

    /// Sends the first item that is out.
    fn send<S: Service>(&mut self)
        ensures { (p : Parties S) (w : CallWorld) (x : Item) → PartiesLaws p → CallsHold p w → IsCalling p self.old w → next_out p w A ≡ Some x
            → is_full w.world.a ≡ false →
            IsCalling p self.new (sends_next w A x) }
    {
        if let Some(item) = self.caller.next_out() {
            let _ = self.endpoint.send(item);
        }
    }

    /// Feeds the next item that waits to the session, and returns whether there was one.
    fn feed<S: Service>(&mut self, alloc: Global) -> Result<bool, AllocError>
        requires { self.old.caller.out ≡ [] }
        ensures { IfOk result (λ b. (p : Parties S) (w : CallWorld) → PartiesLaws p → CallsHold p w → IsCalling p self.old w →
            (b ≡ nat_lt 0 (waiting_count w.world.a)) × IsCalling p self.new (if b then feeds_session w A else w)) }
    {
        let Some(item) = self.endpoint.take() else {
            return Ok(false);
        };
        match self.caller.feed(alloc, item) {
            Ok(()) => Ok(true),
            Err(_) => Err(AllocError),
        }
    }

    /// Lists the outcome that is there, and returns whether there was one.
    fn list<S: Service>(&mut self) -> Result<bool, AllocError>
        ensures { IfOk result (λ b. (p : Parties S) (w : CallWorld) → CallsHold p w → IsCalling p self.old w →
            (b ≡ has_outcome p w) × IsCalling p self.new (if b then lists_outcome w else w)) }
    {
        let Some(seen) = self.caller.outcome() else {
            return Ok(false);
        };
        self.seen.push(seen)?;
        Ok(true)
    }

    /// Makes the next call, where no call is unanswered and calls remain, and returns whether it did.
    fn call<S: Service>(&mut self, alloc: Global, calls: &[Call]) -> Result<bool, AllocError>
        ensures { IfOk result (λ b. (p : Parties S) (w : CallWorld) → PartiesLaws p → CallsHold p w → p.calls ≡ map raw_call calls.now
            → has_outcome p w ≡ false → IsCalling p self.old w →
            (b ≡ may_call p w) × IsCalling p self.new (if b then makes w else w)) }
    {
        if self.seen.len() != self.made || self.made >= calls.len() {
            return Ok(false);
        }
        match self.caller.call(alloc, &calls[self.made]) {
            Ok(()) => {
                self.made += 1;
                Ok(true)
            }
            Err(_) => Err(AllocError),
        }
    }

    /// Lists an outcome, or else makes a call, and returns whether it did either.
    fn act<S: Service>(&mut self, alloc: Global, calls: &[Call]) -> Result<bool, AllocError>
        ensures { IfOk result (λ b. (p : Parties S) (w : CallWorld) → PartiesLaws p → CallsHold p w → p.calls ≡ map raw_call calls.now
            → IsCalling p self.old w →
            Stepped b w (caller_step p w A) (IsCalling p self.new)) }
    {
        if self.list::<S>()? {
            return Ok(true);
        }
        self.call::<S>(alloc, calls)
    }

    /// Feeds an item, or else lists an outcome, or else makes a call, and returns whether it did one of these.
    fn feed_or_act<S: Service>(&mut self, alloc: Global, calls: &[Call]) -> Result<bool, AllocError>
        requires { self.old.caller.out ≡ [] }
        ensures { IfOk result (λ b. (p : Parties S) (w : CallWorld) → PartiesLaws p → CallsHold p w → p.calls ≡ map raw_call calls.now
            → IsCalling p self.old w →
            Stepped b w (if nat_lt 0 (waiting_count w.world.a) then Some (feeds_session w A) else caller_step p w A) (IsCalling p self.new)) }
    {
        if self.feed::<S>(alloc)? {
            return Ok(true);
        }
        self.act::<S>(alloc, calls)
    }

    /// Takes the first step that applies, and returns whether one did.
    fn step<S: Service>(&mut self, alloc: Global, calls: &[Call]) -> Result<bool, AllocError>
        ensures { IfOk result (λ b. (p : Parties S) (w : CallWorld) → PartiesLaws p → CallsHold p w → p.calls ≡ map raw_call calls.now
            → IsCalling p self.old w →
            Stepped b w (step p A w) (IsCalling p self.new)) }
    {
        if !self.caller.has_out() {
            return self.feed_or_act::<S>(alloc, calls);
        }
        if self.endpoint.is_full() {
            return self.act::<S>(alloc, calls);
        }
        self.send::<S>();
        Ok(true)
    }

    /// Takes steps until none applies.
    pub fn step_out<S: Service>(&mut self, alloc: Global, calls: &[Call]) -> Result<(), AllocError>
        ensures { OnOk result ((p : Parties S) (w : CallWorld) → PartiesLaws p → CallsHold p w → p.calls ≡ map raw_call calls.now
            → IsCalling p self.old w →
            IsCalling p self.new (stepped_out (step p A) w)) }
    {
        for _step in 0..MOST_STEPS {
            if !self.step::<S>(alloc, calls)? {
                return Ok(());
            }
        }
        Ok(())
    }

    /// The outcomes that were listed.
    pub fn into_seen(self) -> Vec<Seen>
        ensures { result ≡ self.entry.seen }
    {
        self.seen
    }
}
