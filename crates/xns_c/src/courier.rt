//! Courier's messages.

ghost use Rattle.xns_c.specs.Heads.{message_given};
ghost use Rattle.xns_c.specs.Messages.{ReadsMessage, WritesMessage};

use crate::faults::message_fault_number;
use crate::front::put_front;
use crate::heads::{head_in, head_out, message_bytes};
use crate::message::XnsMessage;
use crate::results::{BAD_ARGUMENT, NO_MEMORY, OK, SHORT_BUFFER, TOO_LONG};
use courier_messages::{Head, MOST_BYTES, MessageRefusal, read_message};
use std::alloc::Global;

/// Reads the message that the bytes are, its words to the front of a buffer (XSIS 038112, Courier, Message stream).
///
/// The number of the first fault; else `NO_MEMORY` where memory is refused for the words; else `SHORT_BUFFER` where there are more of them
/// than the buffer has room for, and `count` is then their number.
#[unsafe(no_mangle)]
pub extern "C" fn xns_message_read(
    alloc: Global,
    bytes: &[u8],
    message: &mut XnsMessage,
    words: &mut [u16],
    count: &mut usize,
) -> u32
    ensures { ReadsMessage bytes.now message.old message.new words.old words.new count.old count.new result }
{
    let found = match read_message(alloc, bytes) {
        Ok(found) => found,
        Err(MessageRefusal::Fault(fault)) => return message_fault_number(fault),
        Err(MessageRefusal::NoMemory) => return NO_MEMORY,
    };
    let result = put_front(found.words(), words, count);
    if result == OK {
        *message = head_out(Head::of(&found));
    }
    result
}

/// Puts the bytes of a message to the front of the buffer.
///
/// `BAD_ARGUMENT` where its kind is none of the four; `TOO_LONG` over 131,072 bytes; `SHORT_BUFFER`, and `written` is then how many bytes
/// are needed. Only then the words are copied: `NO_MEMORY` where memory is refused.
#[tactic(auto, using(crate::proofs::Messages::message_size))]
#[unsafe(no_mangle)]
pub extern "C" fn xns_message_write(
    alloc: Global,
    message: &XnsMessage,
    words: &[u16],
    buffer: &mut [u8],
    written: &mut usize,
) -> u32
    ensures { WritesMessage (message_given message.now words.now) buffer.old buffer.new written.old written.new result }
{
    let Some(head) = head_in(message) else {
        return BAD_ARGUMENT;
    };
    if words.len() > MOST_BYTES / 2 - head.size() {
        return TOO_LONG;
    }
    let needed = 2 * (head.size() + words.len());
    if buffer.len() < needed {
        *written = needed;
        return SHORT_BUFFER;
    }
    match message_bytes(alloc, head, words) {
        Ok(bytes) => put_front(bytes.as_slice(), buffer, written),
        Err(_) => NO_MEMORY,
    }
}
