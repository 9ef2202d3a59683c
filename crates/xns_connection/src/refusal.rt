use thiserror::Error;

/// Why a connection makes no call, or gives no answer. Nothing is changed then.
#[derive(Clone, Copy, Debug, PartialEq, Eq, Error)]
pub enum Refusal {
    /// A call waits for its answer, or the answer was not fetched.
    #[error("a call waits for its answer, or the answer was not fetched")]
    Busy,
    /// The peer opened the connection: its side calls.
    #[error("the peer's side calls")]
    PeerCalls,
    /// No call was handed that is not answered.
    #[error("no call waits for an answer")]
    NoCall,
    /// The connection is closed or was asked to close: nothing more is said.
    #[error("the connection is closed, or closes")]
    Closing,
    /// The message has more words than Courier carries.
    #[error("the message is too long")]
    TooLong,
    /// An allocation failure.
    #[error("an allocation failure")]
    NoMemory,
}
