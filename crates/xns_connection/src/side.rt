//! A side of a conversation: the one that calls or the one that is called.

ghost use Rattle.std.specs.Prelude.{◌≡◌, ◌≤◌, true, false, OnOk, OnErr, None, Ok};
ghost use Rattle.std.specs.Result.{result_map_both};
ghost use Rattle.courier_sessions.specs.Answering.{has_items};
ghost use Rattle.xns_spp.specs.Held.{StandsFor};
ghost use Rattle.xns_spp.specs.Sending.{waiting_count};
ghost use Rattle.xns_spp.specs.State.{State};
ghost use Rattle.xns_connection.specs.Calls.{raw_of_call};
ghost use Rattle.xns_connection.specs.Story.{IsListed, IsUnlisted, is_called, is_stopped, out_of, owes_answer};
ghost use Rattle.xns_connection.specs.Story.{has_message, waiting_message, wants_answer};
ghost use Rattle.xns_connection.specs.Moving.{Converses, Pumps, Rejects};
ghost use Rattle.xns_connection.specs.Deeds.{side_answered, side_called, side_taken};
ghost use Rattle.xns_connection.specs.Refusing.{Answers, side_call_fault, side_answer_fault, refused_call, refused_answer};

use crate::call::Call;
use crate::refusal::Refusal;
use courier_messages::PiecedMessage;
use courier_sessions::{
    Answer, AnswerRefusal, CallRefusal, FeedRefusal, WordCaller, WordServer, WordSide, pump,
};
use std::alloc::{AllocError, Global};
use xns_spp::Endpoint;

/// A side of a conversation.
#[derive(Drop)]
pub enum Side {
    /// The side that makes calls.
    Calls(WordCaller),
    /// The side that is called.
    Answers(WordServer),
}

/// What the program is told where a session made a call or refused it.
fn call_result(made: Result<(), CallRefusal>) -> Result<(), Refusal>
    ensures { result ≡ result_map_both (λ u. u) refused_call made }
{
    match made {
        Ok(()) => Ok(()),
        Err(CallRefusal::Stopped) => Err(Refusal::Closing),
        Err(CallRefusal::Busy) => Err(Refusal::Busy),
        Err(CallRefusal::TooLong) => Err(Refusal::TooLong),
        Err(CallRefusal::NoMemory) => Err(Refusal::NoMemory),
    }
}

/// What the program is told where a session took an answer or refused it.
fn answer_result(given: Result<(), AnswerRefusal>) -> Result<(), Refusal>
    ensures { result ≡ result_map_both (λ u. u) refused_answer given }
{
    match given {
        Ok(()) => Ok(()),
        Err(AnswerRefusal::NoCall) => Err(Refusal::NoCall),
        Err(AnswerRefusal::TooLong) => Err(Refusal::TooLong),
        Err(AnswerRefusal::NoMemory) => Err(Refusal::NoMemory),
    }
}

impl Side {
    /// Whether the side has stopped: it is fed no more.
    pub fn is_stopped(&self) -> bool
        ensures { result ≡ is_stopped self.now }
    {
        match self {
            Side::Calls(caller) => caller.is_stopped(),
            Side::Answers(server) => server.is_stopped(),
        }
    }

    /// Whether the side has items that are to go out.
    pub fn has_out(&self) -> bool
        ensures { result ≡ has_items (out_of self.now) }
    {
        match self {
            Side::Calls(caller) => caller.first_out().is_some(),
            Side::Answers(server) => server.first_out().is_some(),
        }
    }

    /// Whether the peer calls.
    pub fn is_called(&self) -> bool
        ensures { result ≡ is_called self.now }
    {
        match self {
            Side::Calls(_) => false,
            Side::Answers(_) => true,
        }
    }

    /// Whether an answer is owed to the peer: a call waits to be handed, or for its answer, or the answer is to go out.
    pub fn owes_answer(&self) -> bool
        ensures { result ≡ owes_answer self.now }
    {
        match self {
            Side::Calls(_) => false,
            Side::Answers(server) => server.is_busy(),
        }
    }

    /// Whether a call that the side made wants its answer.
    pub fn wants_answer(&self) -> bool
        ensures { result ≡ wants_answer self.now }
    {
        match self {
            Side::Calls(caller) => caller.is_waiting(),
            Side::Answers(_) => false,
        }
    }

    /// Whether there may be a message for the program.
    pub fn has_message(&self) -> bool
        ensures value { result ≡ has_message self.now }
        ensures none { result ≡ false → waiting_message self.now ≡ None }
    {
        match self {
            Side::Calls(caller) => caller.outcome().is_some(),
            Side::Answers(server) => server.first_call().is_some(),
        }
    }

    /// Puts out a call.
    pub fn call(&mut self, alloc: Global, call: &Call<'_>) -> Result<(), Refusal>
        ensures answer { Answers (side_call_fault self.old (raw_of_call call.now)) result }
        ensures is { result ≡ Ok tt → self.new ≡ side_called self.old (raw_of_call call.now) }
        ensures stopped { is_stopped self.new ≡ is_stopped self.old }
        ensures called { is_called self.new ≡ is_called self.old }
        ensures unchanged { OnErr result (self.new ≡ self.old) }
    {
        match self {
            Side::Calls(caller) => call_result(caller.call(
                alloc,
                call.program,
                call.version,
                call.procedure,
                call.words,
            )),
            Side::Answers(_) => Err(Refusal::PeerCalls),
        }
    }

    /// Answers the call that was handed.
    pub fn answer(&mut self, alloc: Global, answer: Answer, words: &[u16]) -> Result<(), Refusal>
        ensures answer { Answers (side_answer_fault self.old answer words.now) result }
        ensures is { result ≡ Ok tt → self.new ≡ side_answered self.old answer words.now }
        ensures stopped { is_stopped self.new ≡ is_stopped self.old }
        ensures called { is_called self.new ≡ is_called self.old }
        ensures unchanged { OnErr result (self.new ≡ self.old) }
    {
        match self {
            Side::Calls(_) => Err(Refusal::NoCall),
            Side::Answers(server) => answer_result(server.answer(alloc, answer, words)),
        }
    }

    /// Takes the message that waits for the program: an answer, or a call whose program is listed. `None`: no message waits.
    pub fn take_message(&mut self) -> Option<PiecedMessage>
        ensures message { result ≡ waiting_message self.old }
        ensures is { self.new ≡ side_taken self.old }
        ensures stopped { is_stopped self.new ≡ is_stopped self.old }
        ensures called { is_called self.new ≡ is_called self.old }
        ensures none { result ≡ None → self.new ≡ self.old }
    {
        match self {
            Side::Calls(caller) => caller.take_outcome(),
            Side::Answers(server) => server.take_call(),
        }
    }

    /// Moves items both ways between the side and its endpoint until nothing moves.
    fn pump(&mut self, alloc: Global, endpoint: &mut Endpoint) -> Result<(), FeedRefusal>
        requires { is_stopped self.old ≡ false }
        ensures pumps { (s : State) → StandsFor endpoint.old s → (v : State) × StandsFor endpoint.new v × Pumps self.old s result self.new v }
        // A call comes only with an item: where as many wait as before, none came.
        ensures calls { has_message self.old ≡ false → OnOk result ((s v : State) → StandsFor endpoint.old s → StandsFor endpoint.new v
            → waiting_count s ≤ waiting_count v → IsListed self.new) }
    {
        xns_spp::laws::the_next_item_is_handed_up();
        match self {
            Side::Calls(caller) => pump(caller, alloc, endpoint),
            Side::Answers(server) => pump(server, alloc, endpoint),
        }
    }

    /// Rejects a call that waits and whose program is not listed; whether there was one.
    fn reject_unlisted(&mut self, alloc: Global) -> Result<bool, AllocError>
        ensures listed { result ≡ Ok false → (self.new ≡ self.old) × IsListed self.old }
        ensures gone { result ≡ Ok true → has_message self.new ≡ false }
        ensures rejects { result ≡ Ok true → Rejects self.old self.new }
        ensures stopped { is_stopped self.new ≡ is_stopped self.old }
        ensures memory { OnErr result (IsUnlisted self.old) }
        ensures unchanged { OnErr result (self.new ≡ self.old) }
    {
        match self {
            Side::Calls(_) => Ok(false),
            Side::Answers(server) => server.reject_unlisted(alloc),
        }
    }

    /// Moves items until none moves, and rejects each call whose program is not listed. After `NoMemory` the next `converse` goes on where
    /// this one stopped.
    pub fn converse(&mut self, alloc: Global, endpoint: &mut Endpoint) -> Result<(), FeedRefusal>
        requires { is_stopped self.old ≡ false }
        ensures converses { (s : State) → StandsFor endpoint.old s → (v : State) × StandsFor endpoint.new v
            × Converses self.old s result self.new v }
    {
        self.pump(alloc, endpoint)?;
        let mut waiting = endpoint.waiting();
        loop {
            if self.is_stopped() {
                return Ok(());
            }
            if !self.reject_unlisted(alloc)? {
                return Ok(());
            }
            self.pump(alloc, endpoint)?;
            let left = endpoint.waiting();
            // Where no item was taken in, no call came.
            if left >= waiting {
                return Ok(());
            }
            waiting = left;
        }
    }
}
