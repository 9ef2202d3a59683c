//! The side of a Courier conversation that is called. It reads no shapes: a call is handed as a message, and its answer goes out with its
//! words.

ghost use Rattle.std.specs.Prelude.{◌≡◌, ◌≢◌, ◌++◌, ℕ, refl, true, false, OnErr, IfOk, Some, None, Ok, Err, option_map};
ghost use Rattle.std.specs.Prelude.{option_copied};
ghost use Rattle.std.specs.Option.{is_some};
ghost use Rattle.courier_messages.specs.declared.message.Message.{Message};
ghost use Rattle.courier_messages.specs.Cutting.{cut};
ghost use Rattle.courier_messages.specs.Head.{with_words};
ghost use Rattle.courier_sessions.specs.Answering.{Answering, new_answering, is_busy, after_item, transaction_in};
ghost use Rattle.courier_sessions.specs.Answering.{after_call, why_unlisted, reject_message, after_reject, answer_message, answers_to};
ghost use Rattle.courier_sessions.specs.Answering.{answer_refusal, is_want_of_memory, with_answer_out};
ghost use Rattle.courier_sessions.specs.Pumping.{server_side};
ghost use Rattle.courier_sessions.specs.Refusing.{IsRefusedAs};
ghost use Rattle.courier_sessions.specs.declared.unlisted.Unlisted.{Unlisted};

use crate::answer::Answer;
use crate::answer_refusal::AnswerRefusal;
use crate::heads::{answer_head, is_call, is_reject, is_too_long};
use crate::hearer::Hearer;
use crate::intake::Intake;
use crate::outgoing::put_message;
use crate::program::Program;
use crate::side::WordSide;
use crate::unlisted::{Unlisted, refusal, reject_words};
use courier_messages::{Head, PiecedMessage, SessionFault, put_out, versions};
use std::alloc::{AllocError, Global};
use std::collections::VecDeque;
use std::marker::Model;
use xns_spp::Item;

/// The side that is called, one call at a time.
#[derive(Drop)]
pub struct WordServer {
    programs: Vec<Program>,
    incoming: Intake,
    out: VecDeque<Item>,
    failed: bool,
    call: Option<PiecedMessage>,
    asked: Option<u16>,
}

impl Model for WordServer {
    ghost use Rattle.courier_sessions.specs.Answering.{Answering};

    ghost Value = { Answering };

    ghost view = { λ s. record {
      programs = s.programs.items;
      phase = s.incoming;
      out = s.out.items;
      failed = s.failed;
      call = s.call;
      asked = s.asked;
    } };
}

impl WordServer {
    /// A side for these programs, whose versions are out. Where there are no programs, each call is handed. The only
    /// error is want of memory.
    pub fn new(alloc: Global, programs: Vec<Program>) -> Result<WordServer, AllocError>
        ensures { IfOk result (λ s. s ≡ new_answering programs.items) }
    {
        Ok(WordServer {
            programs,
            incoming: Intake::new(alloc),
            out: versions(alloc)?,
            failed: false,
            call: None,
            asked: None,
        })
    }

    /// Whether a call waits to be handed or for its answer, or something is out.
    pub fn is_busy(&self) -> bool
        ensures { result ≡ is_busy self.now }
    {
        self.call.is_some() || self.asked.is_some() || !self.out.is_empty()
    }

    /// Whether the conversation has stopped.
    pub fn is_stopped(&self) -> bool
        ensures { result ≡ self.now.failed }
    {
        self.failed
    }

    /// Whether a call was handed and waits for its answer.
    pub fn is_asked(&self) -> bool
        ensures { result ≡ is_some self.now.asked }
    {
        self.asked.is_some()
    }

    /// The call that waits to be handed, listed or not, which stays.
    pub fn first_call(&self) -> Option<&PiecedMessage>
        ensures { option_copied result ≡ self.now.call }
    {
        self.call.as_ref()
    }

    /// Hands the call that waits, once, if its program and version are listed. `None` changes nothing.
    pub fn take_call(&mut self) -> Option<PiecedMessage>
        ensures handed { (m : Message) → self.old.call ≡ Some m → why_unlisted self.old.programs m ≡ None → (result ≡ Some m)
            × (self.new ≡ after_call self.old m) }
        ensures unlisted { (m : Message) (u : Unlisted) → self.old.call ≡ Some m → why_unlisted self.old.programs m ≡ Some u
            → (result ≡ None) × (self.new ≡ self.old) }
        ensures none { self.old.call ≡ None → (result ≡ None) × (self.new ≡ self.old) }
    {
        if self.refusal().is_some() {
            return None;
        }
        let found = self.call.take()?;
        self.asked = Some(found.head().transaction());
        Some(found)
    }

    /// Why the call that waits is not handed, with its transaction.
    fn refusal(&self) -> Option<(u16, Unlisted)>
        ensures waits { (m : Message) → self.now.call ≡ Some m
            → result ≡ option_map (λ u. (transaction_in m, u)) (why_unlisted self.now.programs m) }
        ensures listed { (m : Message) → self.now.call ≡ Some m → result ≡ None → why_unlisted self.now.programs m ≡ None }
        ensures none { self.now.call ≡ None → result ≡ None }
    {
        let found = self.call.as_ref()?;
        let head = found.head();
        let unlisted = refusal(self.programs.as_slice(), head)?;
        Some((head.transaction(), unlisted))
    }

    /// Puts out the reject of the call that waits.
    fn reject(
        &mut self,
        alloc: Global,
        transaction: u16,
        unlisted: Unlisted,
    ) -> Result<(), AllocError>
        ensures rejected { result ≡ Ok tt → self.new ≡ record self.old {
          out = self.old.out ++ cut (reject_message transaction unlisted);
          call = None;
        } }
        ensures unchanged { OnErr result (self.new ≡ self.old) }
    {
        let all = reject_words(alloc, transaction, unlisted)?;
        put_out(alloc, all.as_slice(), &mut self.out)?;
        self.call = None;
        Ok(())
    }

    /// Puts out the reject of a call that waits and whose program or version is not listed: reason 0, or reason 1 with
    /// the versions that are listed (XSIS 038112, Courier, Reject message). Returns whether there was such a call. The
    /// only error is want of memory: nothing is changed then.
    pub fn reject_unlisted(&mut self, alloc: Global) -> Result<bool, AllocError>
        ensures rejected { (m : Message) (u : Unlisted) → self.old.call ≡ Some m → why_unlisted self.old.programs m ≡ Some u
            → result ≡ Ok true → self.new ≡ after_reject self.old m u }
        ensures unlisted { (m : Message) → self.old.call ≡ Some m → result ≡ Ok false → why_unlisted self.old.programs m ≡ None }
        ensures listed { (m : Message) → self.old.call ≡ Some m → why_unlisted self.old.programs m ≡ None → result ≡ Ok false }
        ensures none { self.old.call ≡ None → result ≡ Ok false }
        ensures stays { result ≢ Ok true → self.new ≡ self.old }
    {
        let Some((transaction, unlisted)) = self.refusal() else {
            return Ok(false);
        };
        self.reject(alloc, transaction, unlisted)?;
        Ok(true)
    }

    /// Puts out the items of an answer.
    fn put_out(&mut self, alloc: Global, head: Head, words: &[u16]) -> Result<(), AllocError>
        ensures answered { result ≡ Ok tt → self.new ≡ with_answer_out self.old (with_words head words.now) }
        ensures unchanged { OnErr result (self.new ≡ self.old) }
    {
        put_message(alloc, head, words, &mut self.out)?;
        self.asked = None;
        self.call = None;
        Ok(())
    }

    /// The transaction of the call that an answer is for: the call that was handed, or, for a reject, a call that
    /// waits, is listed and was not handed.
    fn answers_to(&self, answer: Answer) -> Option<u16>
        ensures { result ≡ answers_to self.now answer }
    {
        if self.asked.is_some() {
            return self.asked;
        }
        if !is_reject(answer) {
            return None;
        }
        let found = self.call.as_ref()?;
        let head = found.head();
        match refusal(self.programs.as_slice(), head) {
            Some(_) => None,
            None => Some(head.transaction()),
        }
    }

    /// Puts out the answer to the call of this transaction, if there is one.
    fn answer_to(
        &mut self,
        alloc: Global,
        asked: Option<u16>,
        answer: Answer,
        words: &[u16],
    ) -> Result<(), AnswerRefusal>
        ensures answer { IsRefusedAs is_want_of_memory (answer_refusal asked answer words.now) result }
        ensures answered { (k : ℕ) → asked ≡ Some k → result ≡ Ok tt → self.new ≡ with_answer_out self.old (answer_message answer k words.now) }
        ensures unchanged { OnErr result (self.new ≡ self.old) }
    {
        let Some(transaction) = asked else {
            return Err(AnswerRefusal::NoCall);
        };
        let head = answer_head(answer, transaction);
        if is_too_long(head, words.len()) {
            return Err(AnswerRefusal::TooLong);
        }
        if self.put_out(alloc, head, words).is_err() {
            return Err(AnswerRefusal::NoMemory);
        }
        Ok(())
    }

    /// Puts out the answer to the call that was handed.
    ///
    /// An answer is refused, and nothing is changed, as `NoCall` where no call was handed that waits for its answer;
    /// `TooLong` where the message has over 131,072 bytes; `NoMemory` where a growth was refused.
    pub fn answer(
        &mut self,
        alloc: Global,
        answer: Answer,
        words: &[u16],
    ) -> Result<(), AnswerRefusal>
        ensures answer { IsRefusedAs is_want_of_memory (answer_refusal self.old.asked answer words.now) result }
        ensures answered { (k : ℕ) → self.old.asked ≡ Some k → result ≡ Ok tt
            → self.new ≡ with_answer_out self.old (answer_message answer k words.now) }
        ensures unchanged { OnErr result (self.new ≡ self.old) }
    {
        self.answer_to(alloc, self.asked, answer, words)
    }

    /// Puts out the answer to the call that was handed, and refuses an answer, as [`answer`](WordServer::answer) does.
    /// A reject also answers a call that waits, is listed and was not handed, as one that is too long for the program:
    /// that call is then handed no more.
    pub fn answer_or_reject(
        &mut self,
        alloc: Global,
        answer: Answer,
        words: &[u16],
    ) -> Result<(), AnswerRefusal>
        ensures answer { IsRefusedAs is_want_of_memory (answer_refusal (answers_to self.old answer) answer words.now) result }
        ensures answered { (k : ℕ) → answers_to self.old answer ≡ Some k → result ≡ Ok tt
            → self.new ≡ with_answer_out self.old (answer_message answer k words.now) }
        ensures unchanged { OnErr result (self.new ≡ self.old) }
    {
        let asked = self.answers_to(answer);
        self.answer_to(alloc, asked, answer, words)
    }
}

impl Hearer for WordServer {
    ghost side = { server_side };

    ghost after = { after_item };

    ghost phase = { λ s. s.phase };

    ghost stopped = { λ s. s.failed };

    ghost busy = { is_busy };

    #[inline(always)]
    fn is_stopped(&self) -> bool {
        self.failed
    }

    #[inline(always)]
    fn is_busy(&self) -> bool {
        WordServer::is_busy(self)
    }

    #[inline(always)]
    fn is_empty(&self) -> bool {
        self.incoming.is_empty()
    }

    fn stop(&mut self) {
        self.failed = true;
    }

    #[inline(always)]
    fn judge(&self, stream: u8, last: bool, body: &[u8]) -> Result<(), SessionFault> {
        let Some(head) = self.incoming.look(stream, last, body)? else {
            return Ok(());
        };
        if is_call(head) {
            Ok(())
        } else {
            Err(SessionFault::BadReply)
        }
    }

    #[inline(always)]
    fn take_item(&mut self, alloc: Global, item: Item) -> Result<(), SessionFault> {
        let Some(message) = self.incoming.take(alloc, item)? else {
            return Ok(());
        };
        if !is_call(message.head()) {
            return Err(SessionFault::BadReply);
        }
        self.call = Some(message);
        Ok(())
    }

    ghost fed = { λ s x. refl };
}

impl WordSide for WordServer {
    fn first_out(&self) -> Option<&Item> {
        self.out.front()
    }

    fn take_out(&mut self) -> Option<Item> {
        self.out.pop_front()
    }
}
