use courier_sessions::FeedRefusal;

/// Why a connection is closed.
#[derive(Clone, Copy, Debug, PartialEq, Eq)]
pub enum Why {
    /// The program asked for it, and all that it had to say was said and acknowledged.
    Asked,
    /// The peer asked for it.
    ByPeer,
    /// The peer was silent for as many waits as are borne, and for one more. Where EndReply is out and all else is acknowledged, it is
    /// `Asked` or `ByPeer` instead.
    Silent,
    /// An Error packet of this number quoted a packet of the connection: nobody hears it there. Where EndReply is out and all else is
    /// acknowledged, it is `Asked` or `ByPeer` instead.
    NotServed(u16),
    /// What the peer said is no conversation of Courier's. It is never [`FeedRefusal::Stopped`], [`FeedRefusal::Busy`] nor
    /// [`FeedRefusal::NoMemory`].
    Refused(FeedRefusal),
}
