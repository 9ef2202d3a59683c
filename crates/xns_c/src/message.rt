/// A Courier message but for its words.
#[repr(C)]
#[derive(Clone, Copy)]
pub struct XnsMessage {
    /// 0 a call, 1 a reject, 2 a return, 3 an abort.
    pub kind: u8,
    /// Which call it belongs to.
    pub transaction: u16,
    /// The program number of a call.
    pub program: u32,
    /// The program's version of a call.
    pub version: u16,
    /// The procedure number of a call.
    pub procedure: u16,
    /// The reason of a reject, or the error number of an abort.
    pub number: u16,
}
