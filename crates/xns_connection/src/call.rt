/// A call of a remote procedure, whose arguments are words that are lent.
#[derive(Clone, Copy, Debug, PartialEq, Eq)]
pub struct Call<'a> {
    /// The number of the remote program.
    pub program: u32,
    /// The version of the remote program.
    pub version: u16,
    /// The number of the procedure.
    pub procedure: u16,
    /// The arguments of the call, at most 65,530 words.
    pub words: &'a [u16],
}
