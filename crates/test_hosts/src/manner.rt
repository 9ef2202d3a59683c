/// How a peer is odd.
#[derive(Clone, Copy, PartialEq, Eq)]
pub enum Manner {
    /// Says no more once the connection is open.
    FallsSilent,
    /// Replies to each packet as to the first one, which acknowledges nothing.
    AcknowledgesNothing,
    /// Acknowledges items and uses none, so that its room ends.
    GivesNoRoom,
    /// Calls, and closes in the middle of the call.
    ClosesInACall,
    /// Sends two calls before it reads anything. Each call and each answer is longer than the buffers of both ends.
    ReadsLate,
    /// Sends two such calls, but reads what came while its end is full.
    ReadsWhileFull,
    /// Is called, and agrees to close without an answer.
    AgreesAtOnce,
}

impl Manner {
    pub const ALL: [Manner; 7] = [
        Manner::FallsSilent,
        Manner::AcknowledgesNothing,
        Manner::GivesNoRoom,
        Manner::ClosesInACall,
        Manner::ReadsLate,
        Manner::ReadsWhileFull,
        Manner::AgreesAtOnce,
    ];

    /// Whether the peer reads what came, by whether it has sent all, and whether its end is full.
    pub fn reads(self, is_all_sent: bool, is_full: bool) -> bool {
        match self {
            Manner::ReadsLate => is_all_sent,
            Manner::ReadsWhileFull => is_all_sent || is_full,
            Manner::AgreesAtOnce => true,
            Manner::FallsSilent
            | Manner::AcknowledgesNothing
            | Manner::GivesNoRoom
            | Manner::ClosesInACall => false,
        }
    }

    /// Whether the peer sends again what is not acknowledged.
    pub fn insists(self) -> bool {
        self == Manner::ReadsLate || self == Manner::ReadsWhileFull
    }

    pub fn name(self) -> &'static str {
        match self {
            Manner::FallsSilent => "a peer that falls silent",
            Manner::AcknowledgesNothing => "a peer that acknowledges nothing",
            Manner::GivesNoRoom => "a peer that gives no room",
            Manner::ClosesInACall => "a peer that closes in the middle of a call",
            Manner::ReadsLate => "a peer that sends two long calls before it reads an answer",
            Manner::ReadsWhileFull => "the same, but it reads while its end is full",
            Manner::AgreesAtOnce =>
                "a call, a close behind it, and a peer that agrees without an answer",
        }
    }
}
