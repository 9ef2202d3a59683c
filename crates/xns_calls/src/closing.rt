//! With what a flow has closed its connection.
ghost use Rattle.std.specs.Prelude.{◌≡◌};
ghost use Rattle.xns_calls.specs.Over.{closed_with, closes as closes_of, has_closed, has_replied};

use xns_spp::datastreams::{END, END_REPLY};

/// With what a flow has closed its connection.
#[derive(Clone, Copy, Debug, PartialEq, Eq)]
pub enum Closing {
    /// With nothing yet.
    Open,
    /// With an item of End's datastream.
    End,
    /// With an item of EndReply's datastream.
    EndReply,
}

/// Whether an item of this datastream closes a connection.
pub fn closes(stream: u8) -> bool
    ensures { result ≡ closes_of stream }
{
    stream == END || stream == END_REPLY
}

impl Closing {
    /// With what the flow has closed the connection, once an item of this datastream has come, which closes it.
    pub fn with(self, stream: u8) -> Closing
        ensures { result ≡ closed_with stream self }
    {
        if stream == END_REPLY {
            return Closing::EndReply;
        }
        match self {
            Closing::Open | Closing::End => Closing::End,
            Closing::EndReply => Closing::EndReply,
        }
    }

    /// Whether the flow has closed it.
    pub fn has_closed(self) -> bool
        ensures { result ≡ has_closed self }
    {
        match self {
            Closing::Open => false,
            Closing::End | Closing::EndReply => true,
        }
    }

    /// Whether the flow has closed it with EndReply.
    pub fn has_replied(self) -> bool
        ensures { result ≡ has_replied self }
    {
        match self {
            Closing::Open | Closing::End => false,
            Closing::EndReply => true,
        }
    }
}
