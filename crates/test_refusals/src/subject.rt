use crate::made::Made;
use crate::outcome::Outcome;
use crate::sending::Sending;
use crate::written::Written;
use crate::{courier, printed, sequenced, values};
use std::alloc::{AllocError, Global};

/// The function that is called.
#[derive(Clone, Copy)]
pub enum Subject {
    Written(Written),
    Made(Made),
    Sending(Sending),
    /// The worked opening is received.
    Opening,
    /// The next item is received.
    NextItem,
    /// An item before its turn is received.
    EarlyItem,
    /// A probe is received.
    Probe,
    /// A sequence is read.
    Read,
    /// A record with a choice is read.
    ReadRecord,
    /// A count with no bytes is read.
    ReadBytes,
    /// A count with no cardinals is read.
    ReadWords,
    /// A count with no long cardinals is read.
    ReadValues,
    /// A sequence is read over pieces.
    ReadPieces,
    /// A value is written.
    Write,
    ReadMessage,
    WriteMessage,
    /// A server of calls is made.
    Server,
    /// A caller is made.
    Caller,
    Dump,
    Calls,
    Sim,
}

impl Subject {
    /// The outcome of the function; an error is that of making its arguments.
    pub fn outcome(self, alloc: Global) -> Result<Outcome, AllocError> {
        match self {
            Subject::Written(written) => written.outcome(alloc),
            Subject::Made(made) => made.outcome(alloc),
            Subject::Sending(sending) => sending.outcome(alloc),
            Subject::Opening => sequenced::opens(alloc),
            Subject::NextItem => sequenced::takes(alloc),
            Subject::EarlyItem => sequenced::keeps(alloc),
            Subject::Probe => sequenced::replies(alloc),
            Subject::Read => values::reads(alloc),
            Subject::ReadRecord => values::reads_a_record(alloc),
            Subject::ReadBytes => values::reads_a_count_of_bytes(alloc),
            Subject::ReadWords => values::reads_a_count_of_words(alloc),
            Subject::ReadValues => values::reads_a_count_of_values(alloc),
            Subject::ReadPieces => values::reads_pieces(alloc),
            Subject::Write => values::writes(alloc),
            Subject::ReadMessage => courier::reads_a_message(alloc),
            Subject::WriteMessage => courier::writes_a_message(alloc),
            Subject::Server => courier::makes_a_server(alloc),
            Subject::Caller => courier::makes_a_caller(alloc),
            Subject::Dump => printed::dumps(alloc),
            Subject::Calls => printed::lists_calls(alloc),
            Subject::Sim => printed::plays(alloc),
        }
    }
}
