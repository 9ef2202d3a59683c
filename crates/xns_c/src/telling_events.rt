//! What is told of the connections of a host.

ghost use Rattle.std.specs.Prelude.{◌≡◌, ◌≤◌, ◌++◌, drop, length};
ghost use Rattle.xns_c.specs.Events.{EventIsGiven, event_given, event_number, event_words, is_answer, with_tag};
ghost use Rattle.xns_c.specs.Heads.{head_given};
ghost use Rattle.xns_c.specs.Results.{ok};

use crate::event::XnsEvent;
use crate::faults::{closed_number, error_heard, refused_number};
use crate::heads::head_out;
use crate::message::XnsMessage;
use crate::results::{OK, SHORT_BUFFER};
use courier_messages::PiecedMessage;
use xns_host::Event;

/// A call.
const CALL: u8 = 1;

/// An answer.
const ANSWER: u8 = 2;

/// A connection is closed.
const CLOSED: u8 = 3;

/// A connection is open.
const OPENED: u8 = 4;

/// What stands for the message of an event that has none.
const NO_MESSAGE: XnsMessage = XnsMessage {
    kind: 0,
    transaction: 0,
    program: 0,
    version: 0,
    procedure: 0,
    number: 0,
};

/// What is told of a message of the connection with this number and this tag.
fn message_out(kind: u8, number: usize, tag: u64, message: &PiecedMessage) -> XnsEvent
    ensures { result ≡ record { kind = kind; number = number; tag = tag; message = head_given message.now; closed = 0; error = 0; fault = ok } }
{
    XnsEvent {
        kind,
        number,
        tag,
        message: head_out(message.head()),
        closed: 0,
        error: 0,
        fault: OK,
    }
}

/// What is told of an event but for its words.
fn event_out(event: &Event) -> XnsEvent
    ensures { result ≡ event_given event.now }
{
    match event {
        Event::Opened { number, tag } => XnsEvent {
            kind: OPENED,
            number: *number,
            tag: *tag,
            message: NO_MESSAGE,
            closed: 0,
            error: 0,
            fault: OK,
        },
        Event::Call {
            number,
            tag,
            message,
            ..
        } => message_out(CALL, *number, *tag, message),
        Event::Answer {
            number,
            tag,
            message,
            ..
        } => message_out(ANSWER, *number, *tag, message),
        Event::Closed { number, tag, why } => XnsEvent {
            kind: CLOSED,
            number: *number,
            tag: *tag,
            message: NO_MESSAGE,
            closed: closed_number(*why),
            error: error_heard(*why),
            fault: refused_number(*why),
        },
    }
}

/// The number of the connection that an event is of.
pub fn number_of(event: &Event) -> usize
    ensures { result ≡ event_number event.now }
{
    match event {
        Event::Opened { number, .. } => *number,
        Event::Call { number, .. } => *number,
        Event::Answer { number, .. } => *number,
        Event::Closed { number, .. } => *number,
    }
}

/// Gives an event another tag.
pub fn set_tag(event: &mut Event, tag: u64)
    ensures { event.new ≡ with_tag tag event.old }
{
    match event {
        Event::Opened { tag: told, .. } => *told = tag,
        Event::Call { tag: told, .. } => *told = tag,
        Event::Answer { tag: told, .. } => *told = tag,
        Event::Closed { tag: told, .. } => *told = tag,
    }
}

/// Whether an event is an answer.
pub fn is_answer(event: &Event) -> bool
    ensures { result ≡ is_answer event.now }
{
    match event {
        Event::Answer { .. } => true,
        Event::Opened { .. } | Event::Call { .. } | Event::Closed { .. } => false,
    }
}

/// How many words an event has.
fn word_count(event: &Event) -> usize
    ensures { result ≡ length (event_words event.now) }
{
    match event {
        Event::Call { message, .. } => message.word_count(),
        Event::Answer { message, .. } => message.word_count(),
        Event::Opened { .. } | Event::Closed { .. } => 0,
    }
}

/// Puts the words of an event to the front of a buffer that has room for them.
fn put_words(event: &Event, buffer: &mut [u16])
    requires { length (event_words event.now) ≤ length buffer.old }
    ensures { buffer.new ≡ event_words event.now ++ drop (length (event_words event.now)) buffer.old }
{
    match event {
        Event::Call { message, .. } => message.put_words(buffer),
        Event::Answer { message, .. } => message.put_words(buffer),
        Event::Opened { .. } | Event::Closed { .. } => {}
    }
}

/// Tells an event, its words to the front of a buffer, and how many they are. Of a buffer that is too short nothing is written.
pub fn give_event(found: &Event, event: &mut XnsEvent, words: &mut [u16], count: &mut usize) -> u32
    ensures { EventIsGiven found.now event.new words.old words.new count.new result }
{
    *event = event_out(found);
    let size = word_count(found);
    *count = size;
    if words.len() < size {
        return SHORT_BUFFER;
    }
    put_words(found, words);
    OK
}
