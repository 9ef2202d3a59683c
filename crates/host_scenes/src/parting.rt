/// When the connections of a scene are closed.
#[derive(Clone, Copy, PartialEq, Eq)]
pub enum Parting {
    /// By the client, once its last call is answered.
    Answered,
    /// By the client, right behind its last call.
    Called,
    /// By the client, right behind its last call; and by the server, when a call comes.
    Both,
}
