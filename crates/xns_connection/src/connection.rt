//! A conversation with its waits.

ghost use Rattle.std.specs.Prelude.{◌≡◌, ◌≢◌, ◌<◌, ◌&&◌, ◌||◌, [], ℕ, List, not, if◌then◌else◌, true};
ghost use Rattle.std.specs.Prelude.{OnOk, OnErr, Some, None, Ok, false};
ghost use Rattle.std.specs.Option.{is_some};
ghost use Rattle.xns_spp.specs.Ends.{is_open, is_ours_at};
ghost use Rattle.xns_spp.specs.Held.{StandsFor};
ghost use Rattle.xns_spp.specs.Packet.{IsSppPacket, spp_packet_of};
ghost use Rattle.xns_spp.specs.Receiving.{StoresBytes};
ghost use Rattle.xns_spp.specs.Sending.{tick_answer};
ghost use Rattle.xns_spp.specs.State.{State};
ghost use Rattle.xns_spp.specs.Telling.{is_out, own_name, peer_name};
ghost use Rattle.xns_connection.specs.Calls.{raw_of_call};
ghost use Rattle.xns_connection.specs.Connecting.{FitsClosed, is_again, is_dead, is_open_due, is_closed_due, why_given_up, owed_after};
ghost use Rattle.xns_connection.specs.Moving.{HasHistory};
ghost use Rattle.xns_connection.specs.Reasons.{call_fault_of, answer_fault_of};
ghost use Rattle.xns_connection.specs.Refusing.{Answers};
ghost use Rattle.xns_connection.specs.Deeds.{GoesOnBy, acted, asked, gave, heard, made, unserved};
ghost use Rattle.xns_connection.specs.Story.{waiting_message, has_message};
ghost use Rattle.xns_connection.specs.Telling.{Goes};
ghost use Rattle.xns_agenda.specs.Waiting.{IsDueAfter, StepsAt, act_at, last_time};
ghost use Rattle.xns_agenda.specs.declared.act.Act.TheVariants.{GiveUp};
ghost use Rattle.xns_connection.specs.declared.why.Why.TheVariants.{NotServed, Silent};

mod making;

use crate::call::Call;
use crate::conversation::Conversation;
use crate::owed::Owed;
use crate::refusal::Refusal;
use crate::replying::reply_of;
use crate::settling::{is_of_another, note, owed_after, progress_of, settled, wait_unless};
use crate::why::Why;
use crate::why_closed::{is_dead, why_given_up};
use courier_messages::PiecedMessage;
use courier_sessions::Answer;
use std::alloc::{AllocError, Global};
use xns_agenda::{Act, Due, Wait};
use xns_idp::Address;
use xns_spp::{Bytes, Role, SppPacket};

/// A connection: what it says, when it says it again, and why it is closed.
#[derive(Drop)]
pub struct Connection {
    conversation: Conversation,
    wait: Wait,
    owed: Owed,
    closed: Option<Why>,
    /// Whether the program was told that it is closed.
    told: bool,
    // Where something waits for the peer, a time is set at which it goes out again.
    ghost timed: { closed ≡ None → (s : State) → StandsFor conversation.endpoint s → tick_answer s ≢ [] → is_again wait.due ≡ true },
    ghost fits: { FitsClosed closed conversation wait },
    ghost stands: { HasHistory conversation.endpoint },
}

impl Connection {
    ghost use Rattle.xns_connection.specs.Ends.{peer_that_opened};
    ghost use Rattle.xns_connection.specs.Step.{GivesNext, Hands, MovesOwed, Step, is_ours_by, parts_of};

    /// Moves items until none can move; then records the close reason, if any, and what the connection owes, and takes the step into its wait.
    fn go_on(&mut self, alloc: Global, now: u64)
        ensures moved { GoesOnBy now self.old.conversation self.new.conversation self.old.owed self.new.owed self.old.closed self.new.closed
            self.old.wait self.new.wait }
        ensures told { self.new.told ≡ self.old.told }
    {
        settled(
            &mut self.conversation,
            alloc,
            &mut self.owed,
            &mut self.closed,
            &mut self.wait,
            now,
        );
    }

    /// Takes in a packet that was read from bytes, at this time, if it belongs to the connection; whether it does. One that does not changes
    /// nothing. The only error is want of memory: the packet belongs to the connection, and it is as if it were lost.
    pub fn receive(
        &mut self,
        alloc: Global,
        now: u64,
        packet: &SppPacket,
    ) -> Result<bool, AllocError>
        requires { IsSppPacket packet.now }
        ensures ours { (s : State) → StandsFor self.old.conversation.endpoint s → is_ours_at s.ends packet.now ≡ is_ours_by result }
        ensures step { result ≡ Ok true → (b : List ℕ) → spp_packet_of b ≡ Ok packet.now → Step now (heard b) self.old self.new }
        ensures foreign { result ≡ Ok false → self.new ≡ self.old }
        ensures unchanged { OnErr result (self.new ≡ self.old) }
        ensures memory { OnErr result ((s : State) (b : List ℕ) → StandsFor self.old.conversation.endpoint s
            → spp_packet_of b ≡ Ok packet.now → StoresBytes s b) }
    {
        xns_spp::laws::written_packet_is_read_again();
        xns_spp::laws::foreign_bytes_change_nothing();
        let before = self.conversation.endpoint.unacknowledged();
        let was_open = self.conversation.endpoint.is_open();
        let input = self.conversation.receive(alloc, packet)?;
        if is_of_another(input.dropped) {
            return Ok(false);
        }
        let progress = progress_of(&self.conversation, before, was_open);
        let left = self.conversation.endpoint.unacknowledged() > 0;
        let reply = reply_of(&self.conversation.endpoint, packet);
        note(
            input,
            progress,
            left,
            reply,
            &mut self.owed,
            &mut self.wait,
            now,
        );
        settled(
            &mut self.conversation,
            alloc,
            &mut self.owed,
            &mut self.closed,
            &mut self.wait,
            now,
        );
        Ok(true)
    }

    /// Moves the items for which memory was refused.
    #[tactic(auto, using(crate::proofs::Moments::no_step))]
    fn move_owed(&mut self, alloc: Global, now: u64)
        ensures moved { MovesOwed self.old.owed.moving now self.old self.new }
    {
        if !self.owed.moving {
            return;
        }
        self.go_on(alloc, now);
    }

    /// Does what is due at this time, and says what that is. After `GiveUp` the connection is closed. After `Forget` the connection may go,
    /// once the program was told that it is closed. A [dead](Connection::is_dead) connection may go as soon as the program was told.
    pub fn act(&mut self, now: u64) -> Act
        ensures act { result ≡ act_at self.old.wait now }
        ensures later { now < last_time → IsDueAfter now self.new.wait.due }
        ensures goes { Goes self.old.conversation self.new.conversation }
        ensures packets { self.new.conversation.packets ≡ self.old.conversation.packets }
        ensures step { parts_of self.new ≡ acted (parts_of self.old) now }
    {
        let act = self.wait.act(now);
        self.owed = owed_after(self.owed, act);
        if let Act::GiveUp = act {
            let left = self.conversation.endpoint.unacknowledged();
            self.closed = Some(why_given_up(self.conversation.closing, left, Why::Silent));
            self.conversation.give_up();
            return act;
        }
        act
    }

    /// Closes the connection, unless it is closed: an Error packet of this number says that nobody hears its packets.
    #[tactic(auto, using(crate::proofs::Moments::no_step, crate::proofs::Moments::one_close))]
    pub fn not_served(&mut self, now: u64, number: u16)
        ensures goes { Goes self.old.conversation self.new.conversation }
        ensures owed { self.new.owed ≡ self.old.owed }
        ensures closed { self.old.closed ≢ None → self.new ≡ self.old }
        ensures steps { StepsAt now self.old.wait self.new.wait }
        ensures told { self.new.told ≡ self.old.told }
        ensures step { parts_of self.new ≡ unserved (parts_of self.old) number now }
    {
        if self.closed.is_some() {
            return;
        }
        let left = self.conversation.endpoint.unacknowledged();
        self.closed = Some(why_given_up(self.conversation.closing, left, Why::NotServed(number)));
        self.conversation.give_up();
        self.wait.linger(now);
    }

    /// The next packet that is to go out. `None` where there is none, until something is done again; always, where the connection is
    /// [dead](Connection::is_dead). The only error is want of memory: what is to go out stays so.
    pub fn next_packet(&mut self, alloc: Global, now: u64) -> Result<Option<Bytes>, AllocError>
        ensures step { GivesNext now result self.old self.new }
    {
        self.move_owed(alloc, now);
        if self.is_dead() {
            self.owed = Owed::SILENT;
            return Ok(None);
        }
        let packet = self.conversation.next_packet(alloc, &mut self.owed);
        wait_unless(&self.conversation, self.closed, &mut self.wait, now);
        packet
    }

    /// Puts out a call. An `Err`, which changes nothing, is `Closing` where the connection closes or is closed; `PeerCalls` where the peer
    /// opened it; `Busy` where a call waits for its answer, or the answer was not fetched; `TooLong` over 65,530 words; or `NoMemory`.
    #[tactic(auto, using(crate::proofs::Steps::rest_kept))]
    pub fn call(&mut self, alloc: Global, now: u64, call: &Call<'_>) -> Result<(), Refusal>
        ensures refused { Answers (call_fault_of self.old.conversation (raw_of_call call.now)) result }
        ensures step { OnOk result (Step now (made (raw_of_call call.now)) self.old self.new) }
        ensures unchanged { OnErr result (self.new ≡ self.old) }
    {
        self.conversation.call(alloc, call)?;
        self.go_on(alloc, now);
        Ok(())
    }

    /// Answers the call that was handed. An `Err`, which changes nothing, is `Closing` where the connection closes or is closed; `NoCall`
    /// where none was handed that is not answered; `TooLong` over 131,072 bytes; or `NoMemory`.
    #[tactic(auto, using(crate::proofs::Steps::rest_kept))]
    pub fn answer(
        &mut self,
        alloc: Global,
        now: u64,
        kind: Answer,
        words: &[u16],
    ) -> Result<(), Refusal>
        ensures refused { Answers (answer_fault_of self.old.conversation kind words.now) result }
        ensures step { OnOk result (Step now (gave kind words.now) self.old self.new) }
        ensures unchanged { OnErr result (self.new ≡ self.old) }
    {
        self.conversation.answer(alloc, kind, words)?;
        self.go_on(alloc, now);
        Ok(())
    }

    /// Closes once all that it has to say is said.
    #[tactic(auto, using(crate::proofs::Steps::rest_kept))]
    pub fn close(&mut self, alloc: Global, now: u64)
        ensures step { Step now asked self.old self.new }
    {
        self.conversation.close();
        self.go_on(alloc, now);
    }

    /// Takes the message that waits for the program: an answer, or a call. `None`: no message waits.
    #[tactic(auto, using(crate::proofs::Steps::rest_kept))]
    pub fn take_message(&mut self, alloc: Global, now: u64) -> Option<PiecedMessage>
        ensures message { result ≡ waiting_message self.old.conversation.side }
        ensures step { Hands now self.old self.new }
    {
        let message = self.conversation.take_message()?;
        if !self.owed.moving && self.conversation.is_calm() {
            return Some(message);
        }
        self.go_on(alloc, now);
        Some(message)
    }

    /// Takes the reason why the connection is closed. `None`: it is open, or the reason was taken before.
    pub fn take_why(&mut self) -> Option<Why>
        ensures why { result ≡ (if self.old.told then None else self.old.closed) }
        ensures told { self.new.told ≡ self.old.told || is_some self.old.closed }
        ensures rest { self.new ≡ record self.old { told = self.new.told } }
    {
        if self.told {
            return None;
        }
        let why = self.closed?;
        self.told = true;
        Some(why)
    }

    /// Whether there may be something to tell the program.
    pub fn has_event(&self) -> bool
        ensures { result ≡ has_message self.now.conversation.side || (is_some self.now.closed && not self.now.told) }
    {
        self.conversation.side.has_message() || (self.closed.is_some() && !self.told)
    }

    /// Whether there may be a packet that is to go out.
    pub fn has_packet(&self) -> bool
        ensures { result ≡ self.now.owed.fresh }
    {
        self.owed.fresh
    }

    /// What is due, and when. Where something waits for the peer of a connection that is not closed, this is when that goes out again.
    pub fn due(&self) -> Due
        ensures due { result ≡ self.now.wait.due }
        ensures timed { self.now.closed ≡ None → (s : State) → StandsFor self.now.conversation.endpoint s → tick_answer s ≢ []
            → is_again result ≡ true }
        ensures open { self.now.closed ≡ None → is_open_due result ≡ true }
        ensures closed { self.now.closed ≢ None → is_closed_due result ≡ true }
    {
        self.wait.due()
    }

    /// When the last word of the peer came; at a new connection, when it was made.
    pub fn heard_at(&self) -> u64
        ensures { result ≡ self.now.wait.heard_at }
    {
        self.wait.heard_at()
    }

    /// Whether the connection is closed.
    pub fn is_closed(&self) -> bool
        ensures { result ≡ is_some self.now.closed }
    {
        self.closed.is_some()
    }

    /// Whether silence, a refusal or an Error packet closed the connection: nothing of it goes out, and it does not linger. A connection
    /// that the closing exchange closed is not dead.
    pub fn is_dead(&self) -> bool
        ensures { result ≡ is_dead self.now.closed }
    {
        is_dead(self.closed)
    }

    /// Whether the program was told that it is closed.
    pub fn is_told(&self) -> bool
        ensures { result ≡ self.now.told }
    {
        self.told
    }

    /// Whether the end knows its peer's identifier: of a connection that we opened, whether the peer has replied; of one that a peer opened,
    /// always.
    pub fn is_open(&self) -> bool
        ensures { (s : State) → StandsFor self.now.conversation.endpoint s → result ≡ is_open s.ends }
    {
        self.conversation.endpoint.is_open()
    }

    /// Whether a packet with this sequence number went out lately: its item is not acknowledged, or the packet brought none.
    pub fn is_out(&self, sequence: u16) -> bool
        ensures { (s : State) → StandsFor self.now.conversation.endpoint s → result ≡ is_out s sequence }
    {
        self.conversation.endpoint.is_out(sequence)
    }

    /// The connection's own address and identifier.
    pub fn own(&self) -> (Address, u16)
        ensures { (s : State) → StandsFor self.now.conversation.endpoint s → result ≡ own_name s.ends }
    {
        self.conversation.endpoint.own()
    }

    /// The address and connection identifier of the peer, where the peer opened the connection. `None`: our side opened it.
    pub fn opener(&self) -> Option<(Address, u16)>
        ensures { result ≡ peer_that_opened self.now }
    {
        match self.conversation.endpoint.role() {
            Role::Initiator => None,
            Role::Responder => self.conversation.endpoint.peer(),
        }
    }

    /// Whether the peer opened the connection.
    #[inline(always)]
    pub fn peer_opened(&self) -> bool
        ensures { result ≡ is_some (peer_that_opened self.now) }
    {
        match self.conversation.endpoint.role() {
            Role::Initiator => false,
            Role::Responder => true,
        }
    }

    /// The peer's address and connection identifier. `None`: the connection is not open yet.
    pub fn peer(&self) -> Option<(Address, u16)>
        ensures { (s : State) → StandsFor self.now.conversation.endpoint s → result ≡ peer_name s.ends }
    {
        self.conversation.endpoint.peer()
    }
}
