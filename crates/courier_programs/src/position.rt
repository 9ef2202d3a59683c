//! Lines and columns.

ghost use Rattle.std.specs.Prelude.{◌≡◌, take};
ghost use Rattle.courier_programs.specs.Texts.{position_behind};

/// The line and the column of the place that has so many bytes in front of it. Both count from 1, and a column
/// is a byte. A place past the end is the end.
pub fn line_and_column(text: &[u8], place: usize) -> (usize, usize)
    ensures { result ≡ position_behind (take place text.now) }
{
    let front = &text[..place.min(text.len())];
    let mut line = 1usize;
    let mut column = 1usize;
    for byte in front {
        if *byte == b'\n' {
            line += 1;
            column = 1;
        } else {
            column += 1;
        }
    }
    (line, column)
}
