/// How far the closing exchange of a connection is (XSIS 028112, Sequenced Packet Protocol, Termination): one end asks by an item End,
/// the other answers by an item EndReply, and the first one answers that by EndReply.
#[derive(Clone, Copy)]
pub struct Closing {
    /// The program wants an end.
    pub wanted: bool,
    /// End is put out.
    pub end_sent: bool,
    /// EndReply is to be put out.
    pub reply_wanted: bool,
    /// EndReply is put out.
    pub reply_sent: bool,
    /// The peer's EndReply came.
    pub reply_heard: bool,
    /// What comes is read no more, but for this exchange: the side refused an item, or the connection was given up.
    pub deaf: bool,
}

impl Closing {
    /// Nobody closes.
    pub const NONE: Closing = Closing {
        wanted: false,
        end_sent: false,
        reply_wanted: false,
        reply_sent: false,
        reply_heard: false,
        deaf: false,
    };
}
