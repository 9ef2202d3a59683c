//! Writing all of a text.
ghost use Rattle.std.specs.Prelude.{◌≡◌, IfErr, OnOk};
ghost use Rattle.std.specs.Io.KnownBytes.{Appends};
ghost use Rattle.xns_lines.specs.Faults.{AppendsPart};

use crate::fault::RunFault;
use std::io::Write;

/// Writes all of the text, in as many writes as the writer wants.
///
/// The only error is `Write`, where a write fails or takes no byte: then a prefix of the text is written, and not all of it.
pub fn write_whole<W: Write>(writer: &mut W, text: &[u8]) -> Result<(), RunFault>
    ensures ok { OnOk result (Appends (W.contents writer.old) (W.contents writer.new) text.now) }
    ensures fault { IfErr result (λ fault. (fault ≡ RunFault.Write)
        × AppendsPart (W.contents writer.old) (W.contents writer.new) text.now) }
{
    let mut rest = text;
    while !rest.is_empty() {
        let Ok(count) = writer.write(rest) else {
            return Err(RunFault::Write);
        };
        if count == 0 {
            return Err(RunFault::Write);
        }
        rest = &rest[count..];
    }
    Ok(())
}
