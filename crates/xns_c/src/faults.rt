//! Why what was asked or heard was refused, by number.

ghost use Rattle.std.specs.Prelude.{◌≡◌, ◌≢◌, ◌<◌};
ghost use Rattle.xns_c.specs.Faults.{message_fault_number, session_fault_number, feed_refusal_number, closed_number, error_heard, refused_number};
ghost use Rattle.xns_c.specs.Faults.{host_fault_number, host_told};
ghost use Rattle.xns_c.specs.Results.{ok};

use crate::results::{
    ATTENTION, BAD_ARGUMENT, BUSY, CLOSING, ECHO_SOCKET, EVERY_HOST, NO_CONNECTION, NO_MEMORY,
    NO_SLOT, NO_SOCKET, NO_VERSION, NOTHING, OK, PEER_CALLS, STOPPED, TOO_LONG, TOO_MANY_SERVICES,
};
use courier_messages::{MessageFault, SessionFault};
use courier_sessions::FeedRefusal;
use xns_host::{HostFault, Why};

/// Why bytes are no message.
pub fn message_fault_number(fault: MessageFault) -> u32
    ensures number { result ≡ message_fault_number fault }
    ensures large { 40 < result }
{
    match fault {
        MessageFault::OddLength => 41,
        MessageFault::ShortMessage => 42,
        MessageFault::UnknownKind { found: _ } => 43,
        MessageFault::TooLong => 44,
    }
}

/// Why a conversation stops.
fn session_fault_number(fault: SessionFault) -> u32
    ensures { result ≡ session_fault_number fault }
{
    match fault {
        SessionFault::NoCommonVersion => 51,
        SessionFault::BadVersions => 52,
        SessionFault::BadMessage(fault) => message_fault_number(fault),
        SessionFault::WrongTransaction => 53,
        SessionFault::BadReply => 54,
        SessionFault::Stream { kind: _ } => 55,
        SessionFault::NoMemory => NO_MEMORY,
        SessionFault::Failed => STOPPED,
    }
}

/// Why an item is not taken in.
fn feed_refusal_number(refusal: FeedRefusal) -> u32
    ensures { result ≡ feed_refusal_number refusal }
{
    match refusal {
        FeedRefusal::Stopped => STOPPED,
        FeedRefusal::Busy => BUSY,
        FeedRefusal::TooLong => TOO_LONG,
        FeedRefusal::Attention => ATTENTION,
        FeedRefusal::Fault(fault) => session_fault_number(fault),
        FeedRefusal::NoMemory => NO_MEMORY,
    }
}

/// Why a connection is closed.
pub fn closed_number(why: Why) -> u8
    ensures { result ≡ closed_number why }
{
    match why {
        Why::Asked => 1,
        Why::ByPeer => 2,
        Why::Silent => 3,
        Why::NotServed(_) => 4,
        Why::Refused(_) => 5,
    }
}

/// What the peer said that was refused, or 0.
pub fn refused_number(why: Why) -> u32
    ensures { result ≡ refused_number why }
{
    match why {
        Why::Refused(refusal) => feed_refusal_number(refusal),
        _ => OK,
    }
}

/// The number of the Error packet that closed a connection, or 0.
pub fn error_heard(why: Why) -> u16
    ensures { result ≡ error_heard why }
{
    match why {
        Why::NotServed(number) => number,
        _ => 0,
    }
}

/// Why a host does not do what it is asked.
pub fn host_fault_number(fault: HostFault) -> u32
    ensures number { result ≡ host_fault_number fault }
    ensures refused { result ≢ ok }
{
    match fault {
        HostFault::OutOfRange { setting: _ } => BAD_ARGUMENT,
        HostFault::NoConnection { number: _ } => NO_CONNECTION,
        HostFault::NoRoom => NO_SLOT,
        HostFault::EveryHost => EVERY_HOST,
        HostFault::NoSocket => NO_SOCKET,
        HostFault::EchoSocket => ECHO_SOCKET,
        HostFault::NoVersion => NO_VERSION,
        HostFault::TooManyServices => TOO_MANY_SERVICES,
        HostFault::Busy => BUSY,
        HostFault::PeerCalls => PEER_CALLS,
        HostFault::NoCall => NOTHING,
        HostFault::Closing => CLOSING,
        HostFault::TooLong => TOO_LONG,
        HostFault::NoMemory => NO_MEMORY,
    }
}

/// What a host returns, by number.
pub fn host_told(done: Result<(), HostFault>) -> u32
    ensures { result ≡ host_told done }
{
    match done {
        Ok(()) => OK,
        Err(fault) => host_fault_number(fault),
    }
}
