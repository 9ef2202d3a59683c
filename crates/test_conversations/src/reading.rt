//! What bytes are as a message.
use crate::script::{put, put_bytes, put_message_fault, put_words, unhexed};
use courier_messages::{Head, Message, MessageRefusal, read_message, write_message};
use std::alloc::{AllocError, Global};
use std::fmt::Write;

/// The head of a message.
fn put_head(text: &mut String, head: Head) -> Result<(), AllocError> {
    let transaction = head.transaction();
    match head {
        Head::Call {
            program,
            version,
            procedure,
            ..
        } => write!(text, "call {transaction} {program} {version} {procedure}")?,
        Head::Reject { reason, .. } => write!(text, "reject {transaction} {reason}")?,
        Head::Return { .. } => write!(text, "return {transaction}")?,
        Head::Abort { error, .. } => write!(text, "abort {transaction} {error}")?,
    }
    Ok(())
}

/// A message, and the bytes that it is written as.
fn put_message(alloc: Global, message: &Message, text: &mut String) -> Result<(), AllocError> {
    put_head(text, Head::of(message))?;
    put_words(text, message.words())?;
    let mut bytes = Vec::new(alloc);
    write_message(alloc, message, &mut bytes)?;
    text.push_str(" = ")?;
    put_bytes(text, &bytes)
}

/// The message that the bytes are, and the bytes that it is written as; or the first fault.
pub fn tell(alloc: Global, digits: &str, text: &mut String) -> Result<(), AllocError> {
    let bytes = unhexed(alloc, digits)?;
    match read_message(alloc, &bytes) {
        Ok(message) => put_message(alloc, &message, text),
        Err(MessageRefusal::Fault(fault)) => put_message_fault(text, fault),
        Err(MessageRefusal::NoMemory) => Err(AllocError),
    }
}

/// The fault of a message of so many bytes of 0.
pub fn tell_zeros(alloc: Global, count: &str, text: &mut String) -> Result<(), AllocError> {
    let count = count.parse::<u32>().unwrap_or(0);
    let bytes = vec![in alloc; 0u8; count as usize]?;
    write!(text, "a message of {count} bytes: ")?;
    put(text, &read_message(alloc, &bytes).err())
}
