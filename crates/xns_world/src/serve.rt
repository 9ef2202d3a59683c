//! Gives a server's end packets, which may be anything.

ghost use Rattle.std.specs.Prelude.{◌≡◌, ◌<◌, ◌++◌, ℕ, List, fold, All, OnOk, IfOk};
ghost use Rattle.std.specs.Option.{option_to_list};
ghost use Rattle.xns_idp.specs.Packet.{AreBytes};
ghost use Rattle.courier_calls.specs.Table.{table_model, IsCheckedTable};
ghost use Rattle.xns_spp.specs.Growth.{Begins};
ghost use Rattle.xns_world.specs.Serve.{Served, serve, serve_start, serve_settles, serve_receives, serve_hears, IsServeTrace, IsOfConversation};
ghost use Rattle.xns_world.specs.ServePromises.{IsServedWithin};
ghost use Rattle.xns_world.specs.ServeEnd.{IsServePlaying, ServeStepsBy, HasBoundedEnd};
ghost use Rattle.item_world.specs.Setup.{IsGood};

use crate::laws::calls::server_laws_are_given;
use crate::laws::serving::served_ends_stay_within_bounds;
use crate::serve_trace::ServeTrace;
use crate::serving::ServingEnd;
use courier_calls::{Service, Table};
use item_world::Setup;
use std::alloc::{AllocError, Global};
use xns_idp::known::known_bytes;
use xns_spp::Bytes;

/// A server's end, and every packet that the end sent.
#[derive(Drop)]
pub struct ServePlay<'a, S: Service> {
    b: ServingEnd<'a, S>,
    replies: Vec<Bytes>,
}

impl<'a, S: Service> ServePlay<'a, S> {
    /// The end before any packet came; it has not settled.
    fn new(
        alloc: Global,
        setup: &Setup,
        table: &'a Table,
        service: S,
    ) -> Result<ServePlay<'a, S>, AllocError>
        requires good { IsGood setup.now }
        requires listed { table_model table.now ≡ S.serving.table }
        requires checked { IsCheckedTable (table_model table.now) }
        requires state { S.IsServiceState service }
        ensures { IfOk result (λ play. IsServePlaying S.serving service play (serve_start setup.now)) }
    {
        let b = ServingEnd::new(alloc, setup, table, service)?;
        Ok(ServePlay {
            b,
            replies: Vec::new(alloc),
        })
    }

    /// Lets the end settle. The packets that it then sends join the replies.
    fn settle(&mut self, alloc: Global) -> Result<(), AllocError>
        ensures { OnOk result (ServeStepsBy S.serving self.old self.new (serve_settles S.serving)) }
    {
        self.b.step_out(alloc)?;
        let packets = self.b.endpoint.flush(alloc)?;
        append(&mut self.replies, packets)
    }

    /// Brings a packet, of the connection or not, to the end. The reply to it, if one is owed, joins the replies.
    fn receive(&mut self, alloc: Global, bytes: &[u8]) -> Result<(), AllocError>
        ensures { OnOk result (ServeStepsBy S.serving self.old self.new (λ s w. serve_receives w bytes.now)) }
    {
        let reply = self.b.endpoint.receive(alloc, bytes)?.reply;
        append_reply(&mut self.replies, reply)
    }

    /// Brings a packet to the end, which replies where a reply is owed, and then settles.
    fn serve_one(&mut self, alloc: Global, bytes: &[u8]) -> Result<(), AllocError>
        ensures { OnOk result (ServeStepsBy S.serving self.old self.new (λ s w. serve_hears S.serving s w bytes.now)) }
    {
        self.receive(alloc, bytes)?;
        self.settle(alloc)
    }

    /// Brings all these packets to the end in turn, which settles after each.
    fn serve_each(&mut self, alloc: Global, packets: &[Bytes]) -> Result<(), AllocError>
        ensures { OnOk result (ServeStepsBy S.serving self.old self.new (λ s w. fold (serve_hears S.serving s) w packets.now)) }
    {
        for packet in packets {
            self.serve_one(alloc, packet.as_slice())?;
        }
        Ok(())
    }

    /// Lets the end settle, and then brings all these packets to it in turn.
    fn run(&mut self, alloc: Global, packets: &[Bytes]) -> Result<(), AllocError>
        ensures { OnOk result (ServeStepsBy S.serving self.old self.new
            (λ s w. fold (serve_hears S.serving s) (serve_settles S.serving s w) packets.now)) }
    {
        self.settle(alloc)?;
        self.serve_each(alloc, packets)
    }

    /// The trace of the end.
    fn into_trace(self) -> ServeTrace<S>
        ensures { (s : S) (w : Served) → IsServePlaying S.serving s self.entry w → IsServeTrace S.serving s result w }
    {
        let ServePlay { b, replies } = self;
        let ServingEnd {
            server,
            carried,
            fault,
            handed,
            ..
        } = b;
        ServeTrace {
            handed,
            carried,
            fault,
            replies,
            service: server.into_service(),
        }
    }
}

/// Appends a reply, where there is one, to the replies before it.
fn append_reply(replies: &mut Vec<Bytes>, reply: Option<Bytes>) -> Result<(), AllocError>
    ensures { OnOk result (replies.new.items ≡ replies.old.items ++ option_to_list reply) }
{
    if let Some(packet) = reply {
        replies.push(packet)?;
    }
    Ok(())
}

/// Appends packets to the replies before them.
fn append(replies: &mut Vec<Bytes>, packets: Vec<Bytes>) -> Result<(), AllocError>
    ensures { OnOk result (replies.new.items ≡ replies.old.items ++ packets.items) }
{
    for packet in packets {
        replies.push(packet)?;
    }
    Ok(())
}

/// Changes nothing; says to a proof that packets are of bytes.
fn known_packets(packets: &[Bytes])
    ensures { All AreBytes packets.now }
{
    for packet in packets {
        known_bytes(packet.as_slice());
    }
}

/// The trace of a server's end that is given these packets, which may be anything.
///
/// Whatever the peer sends, the calls carried are those that the items handed up spell, in order and before the first fault, and each
/// is carried out once; and after each packet the windows, what the session keeps of an incoming message, the next answer and all that
/// is out are within their bounds. An `Err` says that memory was refused, and gives no trace.
pub fn serve_bytes<S: Service>(
    alloc: Global,
    setup: &Setup,
    table: &Table,
    service: S,
    packets: &[Bytes],
) -> Result<ServeTrace<S>, AllocError>
    requires good { IsGood setup.now }
    requires listed { table_model table.now ≡ S.serving.table }
    requires checked { IsCheckedTable (table_model table.now) }
    requires state { S.IsServiceState service }
    ensures trace { IfOk result (λ t. IsServeTrace S.serving service t (serve S.serving service setup.now packets.now)) }
    ensures heard { IfOk result (λ t. IsOfConversation S.serving service t) }
    ensures within { IfOk result (λ t. HasBoundedEnd t (serve S.serving service setup.now packets.now)) }
    // After each of the packets the server's end is within its bounds.
    ensures always { IfOk result (λ t. (come : List (List ℕ)) → Begins come packets.now
        → IsServedWithin S.serving service (serve S.serving service setup.now come)) }
{
    setup.known();
    known_packets(packets);
    served_ends_stay_within_bounds::<S>();
    server_laws_are_given::<S>();
    let mut play = ServePlay::new(alloc, setup, table, service)?;
    let ran = play.run(alloc, packets);
    let trace = play.into_trace();
    ran?;
    Ok(trace)
}
