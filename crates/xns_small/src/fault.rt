//! Why a packet's body is no Echo, Error or Packet Exchange.

use thiserror::Error;

/// Why a packet's body is no Echo, Error or Packet Exchange.
#[derive(Clone, Copy, Debug, PartialEq, Eq, Error)]
pub enum SmallFault {
    /// The bytes are fewer than the fields need, which is 2 for Echo, 4 for Error and 6 for Packet Exchange: `have` of them.
    #[error("the fields need more bytes than the {have} that are there")]
    Short { have: usize },
    /// The operation word of an Echo, `found`, is neither 1 for a request nor 2 for a reply.
    #[error("the operation word is {found}, neither 1 for a request nor 2 for a reply")]
    EchoOperation { found: u16 },
}
