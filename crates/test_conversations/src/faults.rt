//! What faults say.
use courier_calls::{CallFault, TableFault};
use courier_messages::{MessageFault, MessageRefusal, SessionFault};
use courier_types::{ReadFault, ReadRefusal, Reason, ShapeFault};
use std::alloc::AllocError;
use std::error::Error;
use std::fmt::Write;

/// A fault of a shape, alone and within that of a table.
const DOUBLED: ShapeFault = ShapeFault::Doubled { word: 7 };

/// A fault of reading a value, alone and within a refusal.
const CUT: ReadFault = ReadFault {
    place: 3,
    reason: Reason::Truncated,
};

/// A fault of reading a message, alone and within what stops at it.
const UNKNOWN: MessageFault = MessageFault::UnknownKind { found: 9 };

/// What each fault says, in a line of its own.
pub fn tell(text: &mut String) -> Result<(), AllocError> {
    tell_values(text)?;
    tell_messages(text)
}

fn tell_values(text: &mut String) -> Result<(), AllocError> {
    line(text, &DOUBLED)?;
    line(text, &TableFault::BadShape { fault: DOUBLED })?;
    line(text, &Reason::NotBoolean)?;
    line(text, &CUT)?;
    line(text, &ReadRefusal::Fault(CUT))
}

fn tell_messages(text: &mut String) -> Result<(), AllocError> {
    line(text, &UNKNOWN)?;
    line(text, &MessageRefusal::Fault(UNKNOWN))?;
    line(text, &SessionFault::BadMessage(UNKNOWN))?;
    line(text, &SessionFault::Stream { kind: 5 })?;
    line(text, &CallFault::TooLong)
}

/// A fault and what it says, behind the end of the line before.
fn line<E: Error>(text: &mut String, fault: &E) -> Result<(), AllocError> {
    write!(text, "\n{fault:?} says: {fault}")
}
