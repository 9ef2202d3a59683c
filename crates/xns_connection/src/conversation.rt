//! An endpoint, its side, and the closing exchange between both.

ghost use Rattle.std.specs.Prelude.{◌≡◌, ◌≢◌, ◌&&◌, ◌||◌, ℕ, [], List, true, false, is_ok, IfOk, OnOk, OnErr, Some, None, Ok, Err};
ghost use Rattle.courier_sessions.specs.declared.feed_refusal.FeedRefusal.TheVariants.{NoMemory};
ghost use Rattle.xns_spp.specs.Held.{StandsFor};
ghost use Rattle.xns_spp.specs.Packet.{IsSppPacket, spp_packet_of};
ghost use Rattle.xns_spp.specs.Receiving.{input_answer, after_receive, StoresBytes};
ghost use Rattle.xns_spp.specs.Sending.{send_answer, after_send, tick_answer, waiting_count};
ghost use Rattle.xns_spp.specs.State.{State};
ghost use Rattle.xns_connection.specs.Calls.{raw_of_call};
ghost use Rattle.xns_connection.specs.Closing.{closing_item, after_end_words, drains, wants_word};
ghost use Rattle.xns_connection.specs.Moving.{IsAt, Moves, ConversationScene, MovesAll, closed_up, drained_out, with_end_out, is_calm, replied, conversation_scene, taken_many, taken_one};
ghost use Rattle.xns_connection.specs.Deeds.{KeepsRest, side_answered, side_called, side_taken};
ghost use Rattle.xns_connection.specs.Refusing.{Answers};
ghost use Rattle.xns_connection.specs.declared.closing.TheConstants.Closing.{NONE};
ghost use Rattle.xns_connection.specs.Story.{waiting_message};

mod giving;

use crate::call::Call;
use crate::closing::Closing;
use crate::refusal::Refusal;
use crate::side::Side;
use courier_messages::PiecedMessage;
use courier_sessions::{Answer, FeedRefusal};
use std::alloc::{AllocError, Global};
use std::collections::VecDeque;
use xns_spp::datastreams::{END, END_REPLY};
use xns_spp::{Bytes, Endpoint, Input, Item, SppPacket};

/// The end of a connection and its side.
#[derive(Drop)]
pub struct Conversation {
    pub endpoint: Endpoint,
    /// Packets that were made and are to go out.
    pub packets: VecDeque<Bytes>,
    pub side: Side,
    pub closing: Closing,
}

/// An item of the closing exchange.
fn closing_item(alloc: Global, stream: u8) -> Item
    ensures { result ≡ closing_item stream }
{
    Item {
        stream,
        attention: false,
        last: true,
        body: Bytes::new(Vec::new(alloc)),
    }
}

/// What is known of closing after an item of this datastream. An EndReply that nobody asked for counts as End and EndReply.
fn noted(closing: Closing, stream: u8) -> Closing
    ensures { result ≡ after_end_words closing stream }
{
    let mut after = closing;
    if stream == END {
        after.reply_wanted = true;
    } else if stream == END_REPLY {
        after.reply_wanted = true;
        after.reply_heard = true;
    }
    after
}

impl Conversation {
    ghost use Rattle.xns_connection.specs.Reasons.{call_fault_of, answer_fault_of};
    ghost use Rattle.xns_connection.specs.Telling.{is_over, is_waiting, owes_end, owes_reply, waits};

    /// A conversation in which nothing was said.
    pub fn new(alloc: Global, endpoint: Endpoint, side: Side) -> Conversation
        ensures endpoint { result.endpoint ≡ endpoint }
        ensures side { result.side ≡ side }
        ensures closing { result.closing ≡ NONE }
        ensures packets { result.packets.items ≡ [] }
    {
        Conversation {
            endpoint,
            packets: VecDeque::new(alloc),
            side,
            closing: Closing::NONE,
        }
    }

    /// Whether the conversation reads only items of the closing exchange: a side that is called does so behind our End, and a side that
    /// calls, whose last answer may still come, does so behind our EndReply.
    fn drains(&self) -> bool
        ensures { result ≡ drains self.now.side self.now.closing }
    {
        self.side.is_stopped()
            || (self.closing.end_sent && self.side.is_called())
            || self.closing.reply_sent
            || self.closing.deaf
    }

    /// Takes the item that waits first, if one waits, and notes what that item says of closing.
    fn take_one(&mut self)
        requires { drains self.old.side self.old.closing ≡ true }
        ensures packets { self.new.packets ≡ self.old.packets }
        ensures drains { drains self.new.side self.new.closing ≡ true }
        ensures at { (s : State) → StandsFor self.old.endpoint s → IsAt self.new (taken_one (conversation_scene self.old s)) }
    {
        let Some(item) = self.endpoint.take() else {
            return;
        };
        self.closing = noted(self.closing, item.stream);
    }

    /// Takes all items that wait, and notes what they say of closing.
    fn drain(&mut self)
        requires { drains self.old.side self.old.closing ≡ true }
        ensures packets { self.new.packets ≡ self.old.packets }
        ensures at { (s : State) → StandsFor self.old.endpoint s → IsAt self.new (taken_many (waiting_count s) (conversation_scene self.old s)) }
    {
        for turn in 0..self.endpoint.waiting() {
            self.take_one();
        }
    }

    /// Takes all items that wait, where the conversation reads only those of the closing exchange.
    fn drain_out(&mut self)
        ensures packets { self.new.packets ≡ self.old.packets }
        ensures at { (s : State) → StandsFor self.old.endpoint s → IsAt self.new (drained_out (conversation_scene self.old s)) }
    {
        if self.endpoint.waiting() == 0 {
            return;
        }
        if self.drains() {
            self.drain();
        }
    }

    /// Whether EndReply is to be put out.
    fn owes_reply(&self) -> bool
        ensures { result ≡ owes_reply self.now }
    {
        self.closing.reply_wanted
            && !self.closing.reply_sent
            && self.drains()
            && !self.side.has_out()
    }

    /// Whether End is to be put out.
    fn owes_end(&self) -> bool
        ensures { result ≡ owes_end self.now }
    {
        self.closing.wanted
            && !self.drains()
            && !self.closing.end_sent
            && !self.side.owes_answer()
            && !self.side.has_out()
    }

    /// Puts out an item of the closing exchange, if it is owed and there is room; whether it was put out.
    fn put(&mut self, alloc: Global, owed: bool, stream: u8) -> bool
        ensures answer { (s : State) → StandsFor self.old.endpoint s → result ≡ owed && is_ok (send_answer s (closing_item stream)) }
        ensures stands { result ≡ true → (s : State) → StandsFor self.old.endpoint s
            → StandsFor self.new.endpoint (after_send s (closing_item stream)) }
        ensures beside { (self.new.side ≡ self.old.side) × (self.new.closing ≡ self.old.closing) }
        ensures packets { self.new.packets ≡ self.old.packets }
        ensures refused { result ≡ false → self.new ≡ self.old }
    {
        owed && self.endpoint.send(closing_item(alloc, stream)).is_ok()
    }

    /// Puts out EndReply, once, where the peer asked for it.
    #[tactic(auto, using(crate::proofs::Scenes::not_replied))]
    fn say_reply(&mut self, alloc: Global)
        ensures packets { self.new.packets ≡ self.old.packets }
        ensures at { (s : State) → StandsFor self.old.endpoint s → IsAt self.new (replied (conversation_scene self.old s)) }
    {
        let owed = self.owes_reply();
        if self.put(alloc, owed, END_REPLY) {
            self.closing.reply_sent = true;
        }
    }

    /// Puts out End, once, where the program wants it: behind all items that are out, and after the answer that the peer is owed.
    #[tactic(auto, using(crate::proofs::Scenes::not_ended))]
    fn say_end(&mut self, alloc: Global)
        ensures packets { self.new.packets ≡ self.old.packets }
        ensures at { (s : State) → StandsFor self.old.endpoint s → IsAt self.new (with_end_out (conversation_scene self.old s)) }
    {
        let owed = self.owes_end();
        if self.put(alloc, owed, END) {
            self.closing.end_sent = true;
        }
    }

    /// Moves items between the side and the endpoint, unless the conversation reads only items of the closing exchange.
    fn converse(&mut self, alloc: Global) -> Result<(), FeedRefusal>
        ensures packets { self.new.packets ≡ self.old.packets }
        ensures moves { (s : State) → StandsFor self.old.endpoint s → (x : ConversationScene) × IsAt self.new x × Moves (conversation_scene self.old s) result x }
    {
        if self.drains() {
            return Ok(());
        }
        self.side.converse(alloc, &mut self.endpoint)
    }

    /// Puts out End and EndReply where they are to go out, and takes all items that wait where only those of the closing exchange are read.
    fn close_up(&mut self, alloc: Global)
        ensures packets { self.new.packets ≡ self.old.packets }
        ensures at { (s : State) → StandsFor self.old.endpoint s → IsAt self.new (closed_up (conversation_scene self.old s)) }
    {
        self.say_end(alloc);
        self.drain_out();
        self.say_reply(alloc);
    }

    /// From now on the conversation reads only items of the closing exchange.
    pub fn give_up(&mut self)
        ensures drains { drains self.new.side self.new.closing ≡ true }
        ensures rest { self.new ≡ record self.old { closing = record self.old.closing { deaf = true } } }
    {
        self.closing.deaf = true;
    }

    /// Where the side refused an item for another reason than memory, the conversation reads only items of the closing exchange from now on.
    fn mark(&mut self, moved: Result<(), FeedRefusal>)
        ensures packets { self.new.packets ≡ self.old.packets }
        ensures good { moved ≡ Ok tt → self.new ≡ self.old }
        ensures memory { moved ≡ Err NoMemory → self.new ≡ self.old }
        ensures given_up { moved ≢ Ok tt → moved ≢ Err NoMemory
            → self.new ≡ record self.old { closing = record self.old.closing { deaf = true } } }
    {
        match moved {
            Ok(()) | Err(FeedRefusal::NoMemory) => {}
            Err(_) => self.give_up(),
        }
    }

    /// Moves items until none can move. An `Err` is why the side refused an item: the side reads no more then. `NoMemory` is an exception:
    /// the next `settle` goes on where this one stopped.
    pub fn settle(&mut self, alloc: Global) -> Result<(), FeedRefusal>
        ensures packets { self.new.packets ≡ self.old.packets }
        ensures settles { (s : State) → StandsFor self.old.endpoint s → (x : ConversationScene) × IsAt self.new x × MovesAll (conversation_scene self.old s) result x }
    {
        let moved = self.converse(alloc);
        self.mark(moved);
        if let Err(FeedRefusal::NoMemory) = moved {
            return moved;
        }
        self.close_up(alloc);
        moved
    }

    /// Whether no item can move, and nothing is to be said or read of closing.
    pub fn is_calm(&self) -> bool
        ensures value { (s : State) → StandsFor self.now.endpoint s → result ≡ is_calm (conversation_scene self.now s) }
    {
        if self.drains() || self.closing.wanted {
            return false;
        }
        if self.side.has_out() || self.side.has_message() {
            return false;
        }
        self.endpoint.waiting() == 0
    }

    /// Notes that the program wants to close the connection.
    pub fn close(&mut self)
        ensures is { self.new ≡ record self.old { closing = record self.old.closing { wanted = true } } }
        ensures rest { KeepsRest self.old self.new }
    {
        self.closing.wanted = true;
    }

    /// Takes in a packet that was read from bytes. The only error is want of memory: it is as if the packet were lost.
    pub fn receive(&mut self, alloc: Global, packet: &SppPacket) -> Result<Input, AllocError>
        requires { IsSppPacket packet.now }
        ensures answer { IfOk result (λ i. (s : State) (b : List ℕ) → StandsFor self.old.endpoint s → spp_packet_of b ≡ Ok packet.now
            → i ≡ input_answer s b) }
        ensures stands { OnOk result ((s : State) (b : List ℕ) → StandsFor self.old.endpoint s → spp_packet_of b ≡ Ok packet.now
            → StandsFor self.new.endpoint (after_receive s b)) }
        ensures rest { self.new ≡ record self.old { endpoint = self.new.endpoint } }
        ensures unchanged { OnErr result (self.new ≡ self.old) }
        ensures memory { OnErr result ((s : State) (b : List ℕ) → StandsFor self.old.endpoint s → spp_packet_of b ≡ Ok packet.now
            → StoresBytes s b) }
    {
        self.endpoint.input_packet(alloc, packet)
    }

    /// Whether something waits for the peer: the connection is not open, or an item is not acknowledged.
    fn is_waiting(&self) -> bool
        ensures value { (s : State) → StandsFor self.now.endpoint s → result ≡ is_waiting s }
        ensures tick { (s : State) → StandsFor self.now.endpoint s → result ≡ false → tick_answer s ≡ [] }
    {
        !self.endpoint.is_open() || self.endpoint.unacknowledged() > 0
    }

    /// How many items are out, if something waits for the peer.
    pub fn waits(&self) -> Option<u64>
        ensures value { (s : State) → StandsFor self.now.endpoint s → result ≡ waits s }
        ensures tick { (s : State) → StandsFor self.now.endpoint s → result ≡ None → tick_answer s ≡ [] }
    {
        if self.is_waiting() {
            Some(self.endpoint.out_count())
        } else {
            None
        }
    }

    /// Whether a word of the peer is wanted, also where nothing waits for the peer: a call of the side's own wants its answer, or the program
    /// or the peer asked for the end of the connection.
    pub fn wants_word(&self) -> bool
        ensures { result ≡ wants_word self.now.side self.now.closing }
    {
        self.side.wants_answer() || self.closing.wanted || self.closing.reply_wanted
    }

    /// Whether the closing exchange is over, and the peer has acknowledged its last item.
    pub fn is_over(&self) -> bool
        ensures { (s : State) → StandsFor self.now.endpoint s → result ≡ is_over self.now.closing s }
    {
        self.closing.reply_sent && self.closing.reply_heard && self.endpoint.unacknowledged() == 0
    }

    /// Puts out a call. An `Err`, which changes nothing, is `Closing` where the conversation closes; `PeerCalls`; `Busy`; `TooLong`; or
    /// `NoMemory`.
    pub fn call(&mut self, alloc: Global, call: &Call<'_>) -> Result<(), Refusal>
        ensures answer { Answers (call_fault_of self.old (raw_of_call call.now)) result }
        ensures is { result ≡ Ok tt → self.new ≡ record self.old { side = side_called self.old.side (raw_of_call call.now) } }
        ensures rest { KeepsRest self.old self.new }
        ensures unchanged { OnErr result (self.new ≡ self.old) }
    {
        if self.drains() {
            return Err(Refusal::Closing);
        }
        if self.closing.wanted {
            return Err(Refusal::Closing);
        }
        self.side.call(alloc, call)
    }

    /// Answers the call that was handed. An `Err`, which changes nothing, is `Closing` where the conversation closes; `NoCall`; `TooLong`;
    /// or `NoMemory`.
    pub fn answer(&mut self, alloc: Global, answer: Answer, words: &[u16]) -> Result<(), Refusal>
        ensures answer { Answers (answer_fault_of self.old answer words.now) result }
        ensures is { result ≡ Ok tt → self.new ≡ record self.old { side = side_answered self.old.side answer words.now } }
        ensures rest { KeepsRest self.old self.new }
        ensures unchanged { OnErr result (self.new ≡ self.old) }
    {
        if self.drains() {
            return Err(Refusal::Closing);
        }
        self.side.answer(alloc, answer, words)
    }

    /// Takes the message that waits for the program. `None`: no message waits.
    pub fn take_message(&mut self) -> Option<PiecedMessage>
        ensures message { result ≡ waiting_message self.old.side }
        ensures is { self.new ≡ record self.old { side = side_taken self.old.side } }
        ensures rest { KeepsRest self.old self.new }
        ensures none { result ≡ None → self.new ≡ self.old }
    {
        self.side.take_message()
    }
}
