/// A field of [`Settings`](crate::Settings).
#[derive(Clone, Copy, Debug, PartialEq, Eq)]
pub enum Setting {
    Connections,
    Window,
    Backlog,
    FirstWait,
    LongestWait,
    LeastWait,
    Tries,
    Patience,
    Strays,
}
