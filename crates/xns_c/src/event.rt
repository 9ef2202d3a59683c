use crate::message::XnsMessage;

/// What is told of a connection of a host.
#[repr(C)]
#[derive(Clone, Copy)]
pub struct XnsEvent {
    /// 1 a call, 2 an answer, 3 that the connection is closed, 4 that it is open.
    pub kind: u8,
    /// The number of the connection.
    pub number: usize,
    /// The program's own number of the connection, or 0.
    pub tag: u64,
    /// The call or the answer but for its words; else all is 0.
    pub message: XnsMessage,
    /// Why the connection is closed, by number, or 0.
    pub closed: u8,
    /// The number of the Error packet that closed the connection, or 0.
    pub error: u16,
    /// What the peer said that was refused, by number, or 0.
    pub fault: u32,
}
