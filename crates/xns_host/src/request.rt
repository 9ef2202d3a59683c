use courier_sessions::Answer;
use xns_connection::Call;

/// What a program asks of a connection.
#[derive(Clone, Copy)]
pub enum Request<'a> {
    /// To put out a call.
    Call(&'a Call<'a>),
    /// To answer the call that was handed, in this way and with these words.
    Answer(Answer, &'a [u16]),
    /// To close once all that the connection has to say is said.
    Close,
}
