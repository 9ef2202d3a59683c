//! Items and bytes as text.
use courier_messages::{MessageFault, SessionFault};
use std::alloc::{AllocError, Global};
use std::fmt::{Debug, Write};
use xns_spp::{Bytes, Item};

/// How many bytes or words are told; of more only the number is.
const MOST_SHOWN: usize = 40;

/// How many items a side has out at a time at most.
const MOST_ITEMS: usize = 300;

/// What a hex digit stands for; 0 for any other sign.
fn digit(sign: u8) -> u8 {
    match sign {
        b'0'..=b'9' => sign.wrapping_sub(b'0'),
        b'a'..=b'f' => sign.wrapping_sub(b'a' - 10),
        _ => 0,
    }
}

/// The bytes that the text stands for: pairs of hex digits.
pub fn unhexed(alloc: Global, text: &str) -> Result<Vec<u8>, AllocError> {
    let mut bytes = Vec::new(alloc);
    let mut rest = text.as_bytes();
    while let [high, low, more @ ..] = rest {
        bytes.push(digit(*high) << 4 | digit(*low))?;
        rest = more;
    }
    Ok(bytes)
}

/// As many bytes of 0 as the text says, at most 65,535.
fn zeros(alloc: Global, text: &str) -> Result<Vec<u8>, AllocError> {
    let count = text.parse::<u16>().unwrap_or(0);
    let mut bytes = Vec::new(alloc);
    for _ in 0..count {
        bytes.push(0)?;
    }
    Ok(bytes)
}

/// The bytes of a step before the sign at its end.
fn body(alloc: Global, step: &str) -> Result<Vec<u8>, AllocError> {
    let text = step.trim_end_matches(['|', '*', '!', '/']);
    match text.strip_prefix('=') {
        Some(count) => zeros(alloc, count),
        None => unhexed(alloc, text),
    }
}

/// The item that a step stands for.
pub fn item(alloc: Global, step: &str) -> Result<Item, AllocError> {
    let sign = step.as_bytes().last();
    Ok(Item {
        stream: if sign == Some(&b'!') { 254 } else { 0 },
        attention: sign == Some(&b'*'),
        last: matches!(sign, Some(b'|' | b'*' | b'!')),
        body: Bytes::new(body(alloc, step)?),
    })
}

pub fn put_bytes(text: &mut String, bytes: &[u8]) -> Result<(), AllocError> {
    for byte in bytes {
        write!(text, "{byte:02x}")?;
    }
    Ok(())
}

/// The value as its type shows it.
pub fn put<T: Debug>(text: &mut String, value: &T) -> Result<(), AllocError> {
    write!(text, "{value:?}")
}

/// Words in hex, and many by their number.
pub fn put_words(text: &mut String, words: &[u16]) -> Result<(), AllocError> {
    if words.len() > MOST_SHOWN {
        return write!(text, " ={}", words.len());
    }
    for word in words {
        write!(text, " {word:04x}")?;
    }
    Ok(())
}

/// An item that goes out.
fn put_item(text: &mut String, item: &Item) -> Result<(), AllocError> {
    let body = item.body.as_slice();
    text.push_str(" <")?;
    if body.len() > MOST_SHOWN {
        write!(text, "={}", body.len())?;
    } else {
        put_bytes(text, body)?;
    }
    text.push_str(if item.last { "|" } else { "/" })
}

/// All items that a side has out; `next_out` hands out the next.
pub fn put_out<F: FnMut() -> Option<Item>>(
    text: &mut String,
    mut next_out: F,
) -> Result<(), AllocError>
    requires { F.IsAlwaysCallable next_out }
{
    for _ in 0..MOST_ITEMS {
        match next_out() {
            Some(item) => put_item(text, &item)?,
            None => break,
        }
    }
    Ok(())
}

/// Why bytes are no message; of an unknown kind, which.
fn message_fault(fault: MessageFault) -> (&'static str, Option<u16>) {
    match fault {
        MessageFault::OddLength => (" OddLength", None),
        MessageFault::ShortMessage => (" ShortMessage", None),
        MessageFault::UnknownKind { found } => (" UnknownKind", Some(found)),
        MessageFault::TooLong => (" TooLong", None),
    }
}

/// Why a session stopped; of an item of another datastream, which.
fn session_fault(fault: SessionFault) -> (&'static str, Option<u16>) {
    match fault {
        SessionFault::NoCommonVersion => (" NoCommonVersion", None),
        SessionFault::BadVersions => (" BadVersions", None),
        SessionFault::BadMessage(fault) => message_fault(fault),
        SessionFault::WrongTransaction => (" WrongTransaction", None),
        SessionFault::BadReply => (" BadReply", None),
        SessionFault::Stream { kind } => (" Stream", Some(u16::from(kind))),
        SessionFault::NoMemory => (" NoMemory", None),
        SessionFault::Failed => (" Failed", None),
    }
}

/// A name, and the number behind it where there is one.
fn put_named(
    text: &mut String,
    (name, number): (&'static str, Option<u16>),
) -> Result<(), AllocError> {
    text.push_str(name)?;
    match number {
        Some(number) => write!(text, " {number}"),
        None => Ok(()),
    }
}

pub fn put_message_fault(text: &mut String, fault: MessageFault) -> Result<(), AllocError> {
    put_named(text, message_fault(fault))
}

pub fn put_session_fault(text: &mut String, fault: SessionFault) -> Result<(), AllocError> {
    put_named(text, session_fault(fault))
}
