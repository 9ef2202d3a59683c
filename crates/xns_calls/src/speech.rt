//! What a flow says.
ghost use Rattle.std.specs.Prelude.{◌≡◌, true, None, IfOk, IfSome, OnErr};
ghost use Rattle.courier_messages.specs.Text.{item_of};
ghost use Rattle.xns_calls.specs.declared.heard.Heard.TheVariants.{Message};
ghost use Rattle.xns_calls.specs.Speech.{MayRefuse, speech_after, behind as behind_of, heard_of};

use crate::heard::Heard;
use courier_messages::{Incoming, SessionFault, WholeMessage};
use std::alloc::{AllocError, Global};
use xns_spp::Item;

/// What a flow has said of what is not whole.
#[derive(Drop)]
pub enum Speech {
    /// All up to the next mark is lost.
    Waiting,
    /// The front of a version range, what stands behind it, or the front of a message.
    Hearing(Incoming),
}

impl Speech {
    /// A message with no bytes behind a mark, or else a wait for one.
    fn behind(alloc: Global, is_last: bool) -> Speech
        ensures { result ≡ behind_of is_last }
    {
        if is_last {
            Speech::Hearing(Incoming::behind_mark(alloc))
        } else {
            Speech::Waiting
        }
    }

    /// Hears the message that an item of datastream 0 with a mark brings whole, of these bytes, where nothing of it was heard
    /// before. `None`, which changes nothing: [`hear`](Speech::hear) says what it brings.
    #[inline(always)]
    pub fn hear_whole<'a>(&mut self, body: &'a [u8]) -> Option<WholeMessage<'a>>
        ensures speech { IfSome result (λ message. self.new ≡ speech_after self.old (item_of 0 true body.now)) }
        ensures heard { IfSome result (λ message. heard_of self.old (item_of 0 true body.now) ≡ Message message) }
        ensures same { result ≡ None → self.new ≡ self.old }
    {
        match self {
            Speech::Waiting => None,
            Speech::Hearing(incoming) => incoming.take_whole(body),
        }
    }

    /// Hears one more item of datastream 0. The only error is want of memory, for bytes that are to be kept and with which
    /// nothing is wrong; it is then as it was.
    pub fn hear(&mut self, alloc: Global, item: Item) -> Result<Heard, AllocError>
        ensures speech { IfOk result (λ heard. self.new ≡ speech_after self.old item) }
        ensures heard { IfOk result (λ heard. heard ≡ heard_of self.old item) }
        ensures memory { OnErr result (MayRefuse self.old item) }
        ensures same { OnErr result (self.new ≡ self.old) }
    {
        let is_last = item.last;
        match self {
            Speech::Waiting => {
                *self = Speech::behind(alloc, is_last);
                Ok(Heard::Nothing)
            }
            Speech::Hearing(incoming) => match incoming.take(alloc, item) {
                Ok(None) => Ok(Heard::Nothing),
                Ok(Some(message)) => Ok(Heard::Message(message)),
                Err(SessionFault::NoMemory) => Err(AllocError),
                Err(fault) => {
                    *self = Speech::behind(alloc, is_last);
                    Ok(Heard::Fault(fault))
                }
            },
        }
    }
}
