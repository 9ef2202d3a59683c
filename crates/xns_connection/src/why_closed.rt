//! Why a connection is closed.

ghost use Rattle.std.specs.Prelude.{◌≡◌};
ghost use Rattle.xns_spp.specs.Held.{StandsFor};
ghost use Rattle.xns_spp.specs.State.{State};
ghost use Rattle.xns_connection.specs.Connecting.{is_dead, why_over, why_given_up, is_closing, why_refused, why_after};
ghost use Rattle.xns_connection.specs.Telling.{is_over};

use crate::closing::Closing;
use crate::conversation::Conversation;
use crate::why::Why;
use courier_messages::SessionFault;
use courier_sessions::FeedRefusal;
use xns_spp::datastreams::{END, END_REPLY};

/// Why a closing exchange is over.
fn why_over(closing: Closing) -> Why
    ensures { result ≡ why_over closing }
{
    if closing.end_sent {
        Why::Asked
    } else {
        Why::ByPeer
    }
}

/// Why a connection is closed that is given up for this reason while so many items are not acknowledged. Where EndReply may be the only
/// such item, the closing exchange counts as over.
pub fn why_given_up(closing: Closing, unacknowledged: usize, reason: Why) -> Why
    ensures { result ≡ why_given_up closing unacknowledged reason }
{
    if closing.reply_sent && unacknowledged <= 1 {
        why_over(closing)
    } else {
        reason
    }
}

/// Whether a connection is dead that is closed for this reason, if it is closed: nothing of it goes out, and it does not linger.
pub fn is_dead(closed: Option<Why>) -> bool
    ensures { result ≡ is_dead closed }
{
    matches!(
        closed,
        Some(Why::Silent | Why::NotServed(_) | Why::Refused(_))
    )
}

/// Whether an item of this datastream closes a connection.
fn is_closing(stream: u8) -> bool
    ensures { result ≡ is_closing stream }
{
    stream == END || stream == END_REPLY
}

/// Why a connection is closed whose side refused an item. `None`: the item closes no connection, as one of the closing exchange, or one for
/// which memory was refused.
fn why_refused(refusal: FeedRefusal) -> Option<Why>
    ensures { result ≡ why_refused refusal }
{
    match refusal {
        FeedRefusal::Stopped | FeedRefusal::Busy | FeedRefusal::NoMemory => None,
        FeedRefusal::TooLong | FeedRefusal::Attention => Some(Why::Refused(refusal)),
        FeedRefusal::Fault(SessionFault::Stream { kind }) => {
            if is_closing(kind) {
                None
            } else {
                Some(Why::Refused(refusal))
            }
        }
        FeedRefusal::Fault(_) => Some(Why::Refused(refusal)),
    }
}

/// Why a connection is closed after its items moved. `None`: it is not.
pub fn why_after(conversation: &Conversation, moved: Result<(), FeedRefusal>) -> Option<Why>
    ensures { (s : State) → StandsFor conversation.now.endpoint s
        → result ≡ why_after conversation.now.closing (is_over conversation.now.closing s) moved }
{
    match moved {
        Err(refusal) => why_refused(refusal),
        Ok(()) => {
            if conversation.is_over() {
                Some(why_over(conversation.closing))
            } else {
                None
            }
        }
    }
}
