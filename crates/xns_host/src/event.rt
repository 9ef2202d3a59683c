//! What a host tells its program.

ghost use Rattle.std.specs.Prelude.{◌≡◌};
ghost use Rattle.xns_host.specs.Events.{event_of};

use courier_messages::{Head, PiecedMessage};
use courier_sessions::Answer;
use xns_connection::Why;

/// What a host tells its program of the connection with this number. The events of one connection come in the order in which they arose.
#[derive(Debug, Drop)]
pub enum Event {
    /// The peer has confirmed a connection that the program opened: a packet with the identifiers of both came. Told once, before all else of
    /// the connection, where [`Settings::tells_opened`](crate::Settings::tells_opened) says so.
    Opened {
        number: usize,
        /// The program's own number of the connection, by [`Host::set_tag`](crate::Host::set_tag).
        tag: u64,
    },
    /// The peer calls: the program and version are listed at the socket. The next call comes when this one is answered.
    Call {
        number: usize,
        tag: u64,
        program: u32,
        version: u16,
        procedure: u16,
        /// The call, whose words are the arguments.
        message: PiecedMessage,
    },
    /// The peer has answered the call that was made.
    Answer {
        number: usize,
        tag: u64,
        answer: Answer,
        /// The answer, whose words are the results, or the arguments of the error.
        message: PiecedMessage,
    },
    /// The connection is closed, and nothing more comes of it. Its number may be another's from now on.
    Closed {
        number: usize,
        tag: u64,
        why: Why,
    },
}

/// What the program is told of a message of the connection with this number and this tag.
pub fn event_of(number: usize, tag: u64, message: PiecedMessage) -> Event
    ensures { result ≡ event_of number tag message }
{
    let answer = match message.head() {
        Head::Call {
            program,
            version,
            procedure,
            ..
        } => {
            return Event::Call {
                number,
                tag,
                program,
                version,
                procedure,
                message,
            };
        }
        Head::Return { .. } => Answer::Return,
        Head::Abort { error, .. } => Answer::Abort { error },
        Head::Reject { reason, .. } => Answer::Reject { reason },
    };
    Event::Answer {
        number,
        tag,
        answer,
        message,
    }
}
