//! The end of a line.
ghost use Rattle.std.specs.Prelude.{◌≡◌, ◌≤◌, length};
ghost use Rattle.xns_lines.specs.Lines.{without_return as without_return_of};

/// A line without one carriage return, byte 13, at its end. What has none there is as it was.
pub fn without_return(line: &[u8]) -> &[u8]
    ensures value { result.now ≡ without_return_of line.now }
    ensures shorter { length result.now ≤ length line.now }
{
    match line {
        [rest @ .., b'\r'] => rest,
        _ => line,
    }
}
