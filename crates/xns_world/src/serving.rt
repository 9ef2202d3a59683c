//! The server's end in a play, which takes one step after another.

ghost use Rattle.std.specs.Prelude.{◌≡◌, ◌++◌, ◌∷◌, List, nat_lt, [], OnOk, IfOk, Some, None, true, false, if◌then◌else◌};
ghost use Rattle.courier_calls.specs.Table.{table_model, IsCheckedTable};
ghost use Rattle.courier_calls.specs.Server.{server_state};
ghost use Rattle.courier_messages.specs.declared.fault.SessionFault.{SessionFault};
ghost use Rattle.xns_spp.specs.Sending.{is_full, waiting_count, after_send, after_take};
ghost use Rattle.xns_spp.specs.State.{State};
ghost use Rattle.xns_spp.specs.declared.item.Item.{Item};
ghost use Rattle.xns_world.specs.CallLaws.{ServerLaws};
ghost use Rattle.xns_world.specs.ServeEnd.{IsServed, IsHearing, next_item_out, fault_noted};
ghost use Rattle.xns_world.specs.Settling.{serve_step, stepped_out, Stepped};
ghost use Rattle.item_world.specs.Setup.{IsGood};
ghost use Rattle.item_world.specs.World.{start, end_at};
ghost use Rattle.item_world.specs.declared.side.Side.TheVariants.{B};

use crate::calling::MOST_STEPS;
use courier_calls::{Call, Server, Service, Table};
use courier_messages::SessionFault;
use item_world::{Items, Setup, Side, copied};
use std::alloc::{AllocError, Global};
use xns_spp::{Endpoint, Item};

/// The server's end: its endpoint, its session, the calls that were decided and the session's first fault.
#[derive(Drop)]
pub struct ServingEnd<'a, S: Service> {
    pub endpoint: Endpoint,
    pub server: Server<'a, S>,
    pub carried: Vec<Call>,
    pub fault: Option<SessionFault>,
    /// The items that were handed up.
    pub handed: Items,
}

impl<'a, S: Service> ServingEnd<'a, S> {
    /// The end at B of this setup, before anything has happened; it has not settled.
    pub fn new(
        alloc: Global,
        setup: &Setup,
        table: &'a Table,
        service: S,
    ) -> Result<ServingEnd<'a, S>, AllocError>
        requires good { IsGood setup.now }
        requires listed { table_model table.now ≡ S.serving.table }
        requires checked { IsCheckedTable (table_model table.now) }
        requires state { S.IsServiceState service }
        ensures { IfOk result (λ e. IsServed S.serving service e (end_at (start setup.now) B)) }
    {
        let endpoint = setup.end(alloc, Side::B)?;
        let server = Server::new(alloc, table, service)?;
        Ok(ServingEnd {
            endpoint,
            server,
            carried: Vec::new(alloc),
            fault: None,
            handed: Items::new(Vec::new(alloc)),
        })
    }

    /// Sends the first item that is out.
    fn send(&mut self)
        ensures { (s : S) (v : State) (x : Item) → ServerLaws S.serving s → IsServed S.serving s self.old v → next_item_out S.serving s v ≡ Some x
            → is_full v ≡ false →
            IsServed S.serving s self.new (after_send v x) }
    {
        if let Some(item) = self.server.next_out() {
            let _ = self.endpoint.send(item);
        }
    }

    /// Feeds an item to the session, which answers a call or refuses the item.
    fn hear(&mut self, alloc: Global, item: Item) -> Result<(), AllocError>
        requires { self.old.server.out ≡ [] }
        ensures hearing { OnOk result ((s : S) (F P : List Item) → ServerLaws S.serving s → IsHearing S.serving s self.old F P
            → IsHearing S.serving s self.new (F ++ item ∷ []) P) }
        ensures endpoint { self.new.endpoint ≡ self.old.endpoint }
        ensures handed { self.new.handed ≡ self.old.handed }
    {
        match self.server.feed(alloc, item) {
            Ok(Some(call)) => {
                self.carried.push(call)?;
                Ok(())
            }
            Ok(None) => Ok(()),
            Err(fault) => note(&mut self.fault, fault),
        }
    }

    /// Hands up the next item that waits, feeds it to the session, and returns whether there was one.
    fn feed(&mut self, alloc: Global) -> Result<bool, AllocError>
        requires { self.old.server.out ≡ [] }
        ensures { IfOk result (λ b. (s : S) (v : State) → ServerLaws S.serving s → IsServed S.serving s self.old v →
            (b ≡ nat_lt 0 (waiting_count v)) × IsServed S.serving s self.new (if b then after_take v else v)) }
    {
        let Some(item) = self.endpoint.take() else {
            return Ok(false);
        };
        item.known();
        list(alloc, &mut self.handed, &item)?;
        self.hear(alloc, item)?;
        Ok(true)
    }

    /// Takes the first step that applies, and returns whether one did.
    fn step(&mut self, alloc: Global) -> Result<bool, AllocError>
        ensures { IfOk result (λ b. (s : S) (v : State) → ServerLaws S.serving s → IsServed S.serving s self.old v →
            Stepped b v (serve_step S.serving s v) (IsServed S.serving s self.new)) }
    {
        if !self.server.has_out() {
            return self.feed(alloc);
        }
        if self.endpoint.is_full() {
            return Ok(false);
        }
        self.send();
        Ok(true)
    }

    /// Takes steps until none applies.
    pub fn step_out(&mut self, alloc: Global) -> Result<(), AllocError>
        ensures { OnOk result ((s : S) (v : State) → ServerLaws S.serving s → IsServed S.serving s self.old v →
            IsServed S.serving s self.new (stepped_out (serve_step S.serving s) v)) }
    {
        for _step in 0..MOST_STEPS {
            if !self.step(alloc)? {
                return Ok(());
            }
        }
        Ok(())
    }

    /// The calls that were decided, and the service as they left it.
    pub fn into_parts(self) -> (Vec<Call>, S)
        ensures carried { result.0 ≡ self.entry.carried }
        ensures service { (s : S) (F P : List Item) → IsHearing S.serving s self.entry F P → result.1 ≡ server_state S.serving s F }
    {
        (self.carried, self.server.into_service())
    }
}

/// Lists an item that was handed up.
fn list(alloc: Global, handed: &mut Items, item: &Item) -> Result<(), AllocError>
    ensures { OnOk result (handed.new ≡ handed.old ++ item.now ∷ []) }
{
    handed.push(copied(alloc, item)?)
}

/// Notes a session's fault, unless the fault says that there was one before. Want of memory is not noted, but returned.
fn note(first: &mut Option<SessionFault>, fault: SessionFault) -> Result<(), AllocError>
    ensures { OnOk result (fault_noted fault first.old first.new) }
{
    match fault {
        SessionFault::NoMemory => return Err(AllocError),
        SessionFault::Failed => {}
        _ => *first = Some(fault),
    }
    Ok(())
}
