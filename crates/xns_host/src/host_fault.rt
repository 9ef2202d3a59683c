ghost use Rattle.std.specs.Prelude.{◌≡◌};
ghost use Rattle.xns_host.specs.Refusing.{fault_of_refusal, told};

use crate::setting::Setting;
use thiserror::Error;
use xns_connection::Refusal;

/// Why a host does not do what it is asked. Nothing is changed then.
#[derive(Clone, Copy, Debug, PartialEq, Eq, Error)]
pub enum HostFault {
    /// A setting is out of its range: the first one.
    #[error("the setting {setting:?} is out of its range")]
    OutOfRange { setting: Setting },
    /// No connection has this number.
    #[error("no connection has the number {number}")]
    NoConnection { number: usize },
    /// As many connections are there as the settings say, and none gives way; or each identifier is in use.
    #[error("as many connections are there as the host may have")]
    NoRoom,
    /// A connection is to the broadcast host, which is every host, or from it.
    #[error("the broadcast host has no connections")]
    EveryHost,
    /// A connection is to socket 0 or from it.
    #[error("0 is no socket")]
    NoSocket,
    /// A service is at Echo's socket.
    #[error("2 is the socket of Echo")]
    EchoSocket,
    /// The lowest version of a program that is to be served is above its highest.
    #[error("a program has its lowest version above its highest")]
    NoVersion,
    /// Sixteen other sockets are served.
    #[error("a host serves at most 16 sockets")]
    TooManyServices,
    /// A call waits for its answer, or the answer was not fetched.
    #[error("a call waits for its answer, or the answer was not fetched")]
    Busy,
    /// The peer opened the connection: its side calls.
    #[error("the peer's side calls")]
    PeerCalls,
    /// No call was handed that is not answered.
    #[error("no call waits for an answer")]
    NoCall,
    /// The connection is closed or was asked to close: nothing more is said.
    #[error("the connection is closed, or closes")]
    Closing,
    /// The message has more words than Courier carries.
    #[error("the message is too long")]
    TooLong,
    /// An allocation failure.
    #[error("an allocation failure")]
    NoMemory,
}

impl From<Refusal> for HostFault {
    fn from(refusal: Refusal) -> HostFault
        ensures { result ≡ fault_of_refusal refusal }
    {
        match refusal {
            Refusal::Busy => HostFault::Busy,
            Refusal::PeerCalls => HostFault::PeerCalls,
            Refusal::NoCall => HostFault::NoCall,
            Refusal::Closing => HostFault::Closing,
            Refusal::TooLong => HostFault::TooLong,
            Refusal::NoMemory => HostFault::NoMemory,
        }
    }
}

/// What a host tells of what one of its connections did.
pub fn told(done: Result<(), Refusal>) -> Result<(), HostFault>
    ensures { result ≡ told done }
{
    match done {
        Ok(()) => Ok(()),
        Err(refusal) => Err(HostFault::from(refusal)),
    }
}
