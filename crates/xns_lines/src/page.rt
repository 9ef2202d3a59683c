//! Text on its way to a writer.
ghost use Rattle.std.specs.Prelude.{◌≡◌, [], false, IfErr, OnOk};
ghost use Rattle.std.specs.Io.KnownBytes.{Appends};
ghost use Rattle.xns_lines.specs.Faults.{AppendsPart};
ghost use Rattle.xns_lines.specs.Report.{whole};

use crate::fault::RunFault;
use crate::report::Report;
use crate::writing::write_whole;
use std::alloc::Global;
use std::io::Write;

/// How many bytes of text are written at once.
const FULL: usize = 65536;

/// The text of an output, as far as it isn't written yet.
#[derive(Drop)]
pub struct Page {
    /// The text.
    pub text: Report,
    /// Whether something was refused, which the output then says.
    pub is_refused: bool,
}

impl Page {
    /// A page with no text.
    pub fn new(alloc: Global) -> Page
        ensures text { whole result.text ≡ [] }
        ensures refused { result.is_refused ≡ false }
    {
        Page {
            text: Report::new(alloc),
            is_refused: false,
        }
    }

    /// Whether there is so much text that it is to be written.
    pub fn is_full(&self) -> bool {
        self.text.len() >= FULL
    }

    /// Writes the text that isn't written yet. It is gone after a failed write too.
    ///
    /// The only error is `Write`, where a write fails or takes no byte: then something of the text isn't written.
    pub fn flush<W: Write>(&mut self, writer: &mut W) -> Result<(), RunFault>
        ensures ok { OnOk result (Appends (W.contents writer.old) (W.contents writer.new) (whole self.old.text)) }
        ensures fault { IfErr result (λ fault. (fault ≡ RunFault.Write)
            × AppendsPart (W.contents writer.old) (W.contents writer.new) (whole self.old.text)) }
        ensures text { whole self.new.text ≡ [] }
        ensures refused { self.new.is_refused ≡ self.old.is_refused }
    {
        let written = write_whole(writer, self.text.as_slice());
        self.text.clear();
        written
    }
}
