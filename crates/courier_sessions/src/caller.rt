//! The side of a Courier conversation that calls. It reads no shapes: a call goes out with its words, and its answer comes as a message.

ghost use Rattle.std.specs.Prelude.{◌≡◌, ℕ, List, length, refl, false, OnErr, IfOk, Some, None, Ok, Err, option_copied};
ghost use Rattle.courier_messages.specs.declared.fault.SessionFault.TheVariants.{NoMemory};
ghost use Rattle.courier_messages.specs.RawCalls.{words_call};
ghost use Rattle.courier_messages.specs.Head.{with_words};
ghost use Rattle.courier_sessions.specs.declared.call_refusal.CallRefusal.TheVariants as refusals;
ghost use Rattle.courier_sessions.specs.Pumping.{caller_side};
ghost use Rattle.courier_sessions.specs.Refusing.{IsRefusedAs};
ghost use Rattle.courier_sessions.specs.Talk.{Talk, new_talk, called, call_refusal, is_want_of_memory, reply_fault, after_item};

use crate::call_refusal::CallRefusal;
use crate::heads::is_call;
use crate::hearer::Hearer;
use crate::intake::Intake;
use crate::outgoing::put_message;
use crate::side::WordSide;
use courier_messages::{Head, MOST_BYTES, PiecedMessage, SessionFault, versions};
use std::alloc::{AllocError, Global};
use std::collections::VecDeque;
use std::marker::Model;
use xns_spp::Item;

/// The most words that a call may have: six words stand before them.
const MOST_WORDS: usize = MOST_BYTES / 2 - 6;

/// The side that calls, one call at a time.
#[derive(Drop)]
pub struct WordCaller {
    incoming: Intake,
    out: VecDeque<Item>,
    failed: bool,
    transaction: u16,
    waiting: bool,
    outcome: Option<PiecedMessage>,
}

impl Model for WordCaller {
    ghost use Rattle.courier_sessions.specs.Talk.{Talk};

    ghost Value = { Talk };

    ghost view = { λ s. record {
      phase = s.incoming;
      out = s.out.items;
      failed = s.failed;
      transaction = s.transaction;
      waiting = s.waiting;
      outcome = s.outcome;
    } };
}

/// Why a message with this head is no answer to the call that waits; `None` where it is one.
fn reply_fault(head: Head, waiting: bool, expects: u16) -> Option<SessionFault>
    ensures fault { (words : List ℕ) → result ≡ reply_fault waiting expects (with_words head words) }
    ensures memory { result ≡ Some NoMemory → ⊥ }
{
    if is_call(head) {
        return Some(SessionFault::BadReply);
    }
    if waiting && head.transaction() == expects {
        None
    } else {
        Some(SessionFault::WrongTransaction)
    }
}

impl WordCaller {
    /// A side whose versions are out. The only error is want of memory.
    pub fn new(alloc: Global) -> Result<WordCaller, AllocError>
        ensures { IfOk result (λ s. s ≡ new_talk) }
    {
        Ok(WordCaller {
            incoming: Intake::new(alloc),
            out: versions(alloc)?,
            failed: false,
            transaction: 0,
            waiting: false,
            outcome: None,
        })
    }

    /// Whether the conversation has stopped.
    pub fn is_stopped(&self) -> bool
        ensures { result ≡ self.now.failed }
    {
        self.failed
    }

    /// Whether a call waits for its answer.
    pub fn is_waiting(&self) -> bool
        ensures { result ≡ self.now.waiting }
    {
        self.waiting
    }

    /// The answer that is there, which stays.
    pub fn outcome(&self) -> Option<&PiecedMessage>
        ensures { option_copied result ≡ self.now.outcome }
    {
        self.outcome.as_ref()
    }

    /// The answer that is there, once: a return, an abort or a reject.
    pub fn take_outcome(&mut self) -> Option<PiecedMessage>
        ensures answer { result ≡ self.old.outcome }
        ensures rest { self.new ≡ record self.old { outcome = None } }
    {
        self.outcome.take()
    }

    /// Why a call of so many words can't be made now.
    fn refusal(&self, count: usize) -> Result<(), CallRefusal>
        ensures answer { (program version procedure : ℕ) (words : List ℕ) → length words ≡ count
            → IsRefusedAs is_want_of_memory (call_refusal self.now (words_call program version procedure words)) result }
        ensures apart { result ≡ Err refusals.NoMemory → ⊥ }
    {
        if self.failed {
            Err(CallRefusal::Stopped)
        } else if self.waiting || self.outcome.is_some() {
            Err(CallRefusal::Busy)
        } else if count > MOST_WORDS {
            Err(CallRefusal::TooLong)
        } else {
            Ok(())
        }
    }

    /// Puts out a call.
    ///
    /// A call is refused, and nothing is changed, as `Stopped` where the conversation has stopped; `Busy` where a call
    /// waits for its answer or an answer was not picked up; `TooLong` over 65,530 words; `NoMemory` where a growth was
    /// refused.
    pub fn call(
        &mut self,
        alloc: Global,
        program: u32,
        version: u16,
        procedure: u16,
        words: &[u16],
    ) -> Result<(), CallRefusal>
        ensures answer { IsRefusedAs is_want_of_memory (call_refusal self.old (words_call program version procedure words.now)) result }
        ensures called { result ≡ Ok tt → self.new ≡ called self.old (words_call program version procedure words.now) }
        ensures unchanged { OnErr result (self.new ≡ self.old) }
    {
        self.refusal(words.len())?;
        let transaction = self.transaction.wrapping_add(1);
        let head = Head::Call {
            transaction,
            program,
            version,
            procedure,
        };
        if put_message(alloc, head, words, &mut self.out).is_err() {
            return Err(CallRefusal::NoMemory);
        }
        self.transaction = transaction;
        self.waiting = true;
        Ok(())
    }
}

impl Hearer for WordCaller {
    ghost side = { caller_side };

    ghost after = { after_item };

    ghost phase = { λ s. s.phase };

    ghost stopped = { λ s. s.failed };

    ghost busy = { λ s. false };

    #[inline(always)]
    fn is_stopped(&self) -> bool {
        self.failed
    }

    #[inline(always)]
    fn is_busy(&self) -> bool {
        false
    }

    #[inline(always)]
    fn is_empty(&self) -> bool {
        self.incoming.is_empty()
    }

    fn stop(&mut self) {
        self.failed = true;
    }

    #[inline(always)]
    fn judge(&self, stream: u8, last: bool, body: &[u8]) -> Result<(), SessionFault> {
        let Some(head) = self.incoming.look(stream, last, body)? else {
            return Ok(());
        };
        match reply_fault(head, self.waiting, self.transaction) {
            Some(fault) => Err(fault),
            None => Ok(()),
        }
    }

    #[inline(always)]
    fn take_item(&mut self, alloc: Global, item: Item) -> Result<(), SessionFault> {
        let Some(message) = self.incoming.take(alloc, item)? else {
            return Ok(());
        };
        if let Some(fault) = reply_fault(message.head(), self.waiting, self.transaction) {
            return Err(fault);
        }
        self.outcome = Some(message);
        self.waiting = false;
        Ok(())
    }

    ghost fed = { λ s x. refl };
}

impl WordSide for WordCaller {
    fn first_out(&self) -> Option<&Item> {
        self.out.front()
    }

    fn take_out(&mut self) -> Option<Item> {
        self.out.pop_front()
    }
}
