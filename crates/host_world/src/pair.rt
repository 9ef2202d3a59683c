//! Two connections, and what is done at either of them.

ghost use Rattle.std.specs.Prelude.{◌≡◌, ◌<◌, ◌||◌, ℕ, List, [], IfOk, IfSome, OnOk, OnErr, Ok, Err, Some, None, true, false, if◌then◌else◌};
ghost use Rattle.std.specs.Borrow.{sem};
ghost use Rattle.std.specs.Option.{is_some, option_to_list};
ghost use Rattle.courier_sessions.specs.Answering.{answer_message};
ghost use Rattle.courier_sessions.specs.declared.program.Program.{Program};
ghost use Rattle.xns_spp.specs.Ends.{is_ours_at};
ghost use Rattle.xns_spp.specs.Held.{StandsFor};
ghost use Rattle.xns_spp.specs.Packet.{SppPacketModel, spp_packet_of};
ghost use Rattle.xns_spp.specs.Receiving.{StoresBytes};
ghost use Rattle.xns_spp.specs.State.{State};
ghost use Rattle.xns_spp.specs.declared.dropped.Dropped.{Dropped};
ghost use Rattle.xns_connection.specs.Calls.{raw_of_call};
ghost use Rattle.xns_connection.specs.Connecting.{is_dead};
ghost use Rattle.xns_connection.specs.Deeds.{acted, asked, gave, heard, made};
ghost use Rattle.xns_connection.specs.Reasons.{call_fault_of, answer_fault_of};
ghost use Rattle.xns_connection.specs.Refusing.{Answers};
ghost use Rattle.xns_connection.specs.Step.{GivesNext, Hands, IsMade, Step, is_ours_by, parts_of};
ghost use Rattle.xns_connection.specs.Story.{asked_of, waiting_message};
ghost use Rattle.xns_connection.specs.Telling.{HearsBytes, Rested};
ghost use Rattle.xns_agenda.specs.Waiting.{HearsAt, StepsAt, act_at};
ghost use Rattle.host_world.specs.Meeting.{Meeting, new_meeting};
ghost use Rattle.host_world.specs.declared.station.Station.{Station};
ghost use Rattle.host_world.specs.Meets.{IsMet};
ghost use Rattle.host_world.specs.Pairing.{connection_at, LendsConnection, PairStandsFor, Steps, StepsByBytes};
ghost use Rattle.host_world.specs.Pairing.{with_no_more, one_call_more, one_message_more, one_answer_more};

use crate::laws::two_connections_over_a_network_agree;
use crate::station::Station;
use courier_messages::PiecedMessage;
use courier_sessions::{Answer, Program};
use item_world::Side;
use std::alloc::{AllocError, Global};
use xns_connection::laws::{
    a_connection_gives_what_it_made, a_message_is_handed_as_by_a_step, a_step_keeps_its_promises,
};
use xns_connection::{Act, Call, Connection, Due, Refusal, Why};
use xns_spp::{Bytes, read_packet};

/// Two connections: the one at `A` calls, and the one at `B` is called.
#[derive(Drop)]
pub struct Pair {
    a: Connection,
    b: Connection,
}

impl Pair {
    /// A pair of new connections between these two stations, made at this time in milliseconds. The side that calls can call these programs.
    /// The only error is want of memory.
    pub fn new(
        alloc: Global,
        calls: &Station,
        called: &Station,
        programs: Vec<Program>,
        now: u64,
    ) -> Result<Pair, AllocError>
        requires calls_id { 0 < calls.now.id }
        requires called_id { 0 < called.now.id }
        ensures stands { IfOk result (λ p. PairStandsFor p calls.now called.now programs.items
            (new_meeting calls.now called.now programs.items p.a.conversation p.b.conversation)) }
        ensures made { IfOk result (λ p. IsMade calls.now.terms.pace now true p.a × IsMade called.now.terms.pace now false p.b) }
    {
        calls.known();
        called.known();
        let a = Connection::calling(
            alloc,
            &calls.terms,
            calls.address,
            calls.id,
            called.address,
            now,
        )?;
        let b = Connection::answering(
            alloc,
            &called.terms,
            called.address,
            called.id,
            calls.address,
            calls.id,
            programs,
            now,
        )?;
        Ok(Pair { a, b })
    }

    /// The connection at this side.
    fn at(&mut self, side: Side) -> &mut Connection
        ensures* lends { sem 𝓛 (LendsConnection self.entry side result) }
        ensures value { result.now ≡ connection_at self.old side }
    {
        match side {
            Side::A => &mut self.a,
            Side::B => &mut self.b,
        }
    }

    /// Puts out a call at this side. An `Err` is the reason for which [`Connection::call`] refuses the call; the pair stays as it was then.
    pub fn call(
        &mut self,
        alloc: Global,
        now: u64,
        side: Side,
        call: &Call<'_>,
    ) -> Result<(), Refusal>
        ensures answer { Answers (call_fault_of (connection_at self.old side).conversation (raw_of_call call.now)) result }
        ensures steps { OnOk result (Steps 1 self.old self.new side (one_call_more (raw_of_call call.now)) []) }
        ensures waits { StepsAt now (connection_at self.old side).wait (connection_at self.new side).wait }
        ensures step { OnOk result (Step now (made (raw_of_call call.now)) (connection_at self.old side) (connection_at self.new side)) }
        ensures unchanged { OnErr result (self.new ≡ self.old) }
    {
        a_step_keeps_its_promises();
        self.at(side).call(alloc, now, call)
    }

    /// Answers the call that was handed at this side. An `Err` is the reason for which [`Connection::answer`] refuses the answer; the pair stays
    /// as it was then.
    pub fn answer(
        &mut self,
        alloc: Global,
        now: u64,
        side: Side,
        kind: Answer,
        words: &[u16],
    ) -> Result<(), Refusal>
        ensures answer { Answers (answer_fault_of (connection_at self.old side).conversation kind words.now) result }
        ensures steps { OnOk result ((k : ℕ) × (asked_of (connection_at self.old side).conversation.side ≡ Some k)
            × Steps 1 self.old self.new side (one_answer_more (answer_message kind k words.now)) []) }
        ensures waits { StepsAt now (connection_at self.old side).wait (connection_at self.new side).wait }
        ensures step { OnOk result (Step now (gave kind words.now) (connection_at self.old side) (connection_at self.new side)) }
        ensures unchanged { OnErr result (self.new ≡ self.old) }
    {
        a_step_keeps_its_promises();
        self.at(side).answer(alloc, now, kind, words)
    }

    /// Closes the connection at this side once all that it has to say is said.
    pub fn close(&mut self, alloc: Global, now: u64, side: Side)
        ensures steps { Steps 1 self.old self.new side with_no_more [] }
        ensures asked { (connection_at self.new side).conversation.closing.wanted ≡ true }
        ensures waits { StepsAt now (connection_at self.old side).wait (connection_at self.new side).wait }
        ensures step { Step now asked (connection_at self.old side) (connection_at self.new side) }
    {
        a_step_keeps_its_promises();
        self.at(side).close(alloc, now);
    }

    /// Hands the program at this side the message that waits for it, an answer or a call. Each is handed once. `None` where none waits.
    pub fn take_message(&mut self, alloc: Global, now: u64, side: Side) -> Option<PiecedMessage>
        ensures message { result ≡ waiting_message (connection_at self.old side).conversation.side }
        ensures steps { IfSome result (λ m. Steps 1 self.old self.new side (one_message_more m) []) }
        ensures waits { StepsAt now (connection_at self.old side).wait (connection_at self.new side).wait }
        ensures step { Hands now (connection_at self.old side) (connection_at self.new side) }
        ensures none { result ≡ None → self.new ≡ self.old }
    {
        a_message_is_handed_as_by_a_step();
        self.at(side).take_message(alloc, now)
    }

    /// Tells the program at this side, once, why the connection there is closed. `None`: the connection is open, or the program was told.
    pub fn take_why(&mut self, side: Side) -> Option<Why>
        ensures steps { Steps 0 self.old self.new side with_no_more [] }
        ensures why { result ≡ (if (connection_at self.old side).told then None else (connection_at self.old side).closed) }
        ensures told { (connection_at self.new side).told ≡ (connection_at self.old side).told
            || is_some (connection_at self.old side).closed }
        ensures rest { connection_at self.new side ≡ record (connection_at self.old side) { told = (connection_at self.new side).told } }
    {
        self.at(side).take_why()
    }

    /// What is due at this side, and when.
    pub fn due(&self, side: Side) -> Due
        ensures { result ≡ (connection_at self.now side).wait.due }
    {
        match side {
            Side::A => self.a.due(),
            Side::B => self.b.due(),
        }
    }

    /// Does what is due at this side at this time, and says what that is.
    pub fn act(&mut self, now: u64, side: Side) -> Act
        ensures steps { Steps 1 self.old self.new side with_no_more [] }
        ensures act { result ≡ act_at (connection_at self.old side).wait now }
        ensures step { parts_of (connection_at self.new side) ≡ acted (parts_of (connection_at self.old side)) now }
    {
        self.at(side).act(now)
    }

    /// Gives the next packet that is to go out at this side. `None`: there is none, until something is done again. The only error is want of
    /// memory; what was to go out is then still to go out.
    pub fn next_packet(
        &mut self,
        alloc: Global,
        now: u64,
        side: Side,
    ) -> Result<Option<Bytes>, AllocError>
        ensures gives { IfOk result (λ o. Steps 2 self.old self.new side with_no_more (option_to_list o)) }
        ensures given_none { OnErr result (Steps 2 self.old self.new side with_no_more []) }
        ensures waits { StepsAt now (connection_at self.old side).wait (connection_at self.new side).wait }
        ensures step { GivesNext now result (connection_at self.old side) (connection_at self.new side) }
        ensures rested { is_dead (connection_at self.new side).closed ≡ false → result ≡ Ok None
            → Rested (connection_at self.old side).conversation (connection_at self.new side).conversation }
        ensures none { result ≡ Ok None → ((connection_at self.new side).owed.again ≡ false)
            × ((connection_at self.new side).owed.asks ≡ false) × ((connection_at self.new side).owed.word ≡ false) }
    {
        a_connection_gives_what_it_made();
        self.at(side).next_packet(alloc, now)
    }

    /// Takes in bytes that came to this side, and returns whether they are a packet of the connection there. Bytes that are none change
    /// nothing. The only error is want of memory: the bytes then count as lost.
    pub fn receive(
        &mut self,
        alloc: Global,
        now: u64,
        side: Side,
        bytes: &[u8],
    ) -> Result<bool, AllocError>
        ensures takes_in { OnOk result (StepsByBytes self.old self.new side bytes.now) }
        ensures hears { OnOk result ((p : SppPacketModel) → spp_packet_of bytes.now ≡ Ok p
            → HearsBytes (connection_at self.old side).conversation (connection_at self.new side).conversation bytes.now
            × HearsAt now (connection_at self.old side).wait (connection_at self.new side).wait) }
        ensures ours { (s : State) (p : SppPacketModel) → StandsFor (connection_at self.old side).conversation.endpoint s
            → spp_packet_of bytes.now ≡ Ok p → is_ours_at s.ends p ≡ is_ours_by result }
        ensures step { result ≡ Ok true → Step now (heard bytes.now) (connection_at self.old side) (connection_at self.new side) }
        ensures foreign { (result ≡ Ok false → self.new ≡ self.old)
            × ((why : Dropped) → spp_packet_of bytes.now ≡ Err why → result ≡ Ok false) }
        ensures unchanged { OnErr result ((self.new ≡ self.old) × ((s : State)
            → StandsFor (connection_at self.old side).conversation.endpoint s → StoresBytes s bytes.now)) }
    {
        let Ok(packet) = read_packet(bytes) else {
            return Ok(false);
        };
        xns_spp::laws::foreign_bytes_change_nothing();
        a_step_keeps_its_promises();
        self.at(side).receive(alloc, now, &packet)
    }

    /// Whatever was done at either side, in whatever order, and whatever came of what may come: at every moment what each end handed up
    /// begins what the other's accepted, the two programs agree, and each packet that a connection gave was made by its end.
    pub fn agrees(&self)
        ensures { (a b : Station) (programs : List Program) (m : Meeting) → PairStandsFor self.now a b programs m → IsMet programs m }
    {
        two_connections_over_a_network_agree();
    }
}
