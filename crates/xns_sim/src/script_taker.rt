//! What `sim` makes of the lines of its input.
ghost use Rattle.std.specs.Prelude.{[]};
ghost use Rattle.xns_script.specs.Reading.{HasReadLines};

use std::alloc::Global;
use std::io::Write;
use xns_lines::{LineTaker, RunFault, without_return};
use xns_script::Script;

/// Reads the lines of a script.
#[derive(Drop)]
pub(crate) struct ScriptTaker {
    /// The script that was read so far.
    pub(crate) script: Script,
}

impl ScriptTaker {
    /// A taker that has read nothing.
    pub(crate) fn new(alloc: Global) -> Self
        ensures { HasReadLines result.script [] }
    {
        ScriptTaker {
            script: Script::new(alloc),
        }
    }
}

impl LineTaker for ScriptTaker {
    ghost use Rattle.xns_sim.specs.Sim.Script.{stands_for, never_fails};
    ghost use Rattle.xns_lines.specs.Lines.{most_lines};

    ghost limit = { most_lines };

    ghost stands = { stands_for };

    ghost fails = { never_fails };

    fn take_line<W: Write>(
        &mut self,
        number: usize,
        line: &[u8],
        _writer: &mut W,
    ) -> Result<(), RunFault> {
        match self.script.read_line(number, without_return(line)) {
            Ok(()) => Ok(()),
            Err(_) => Err(RunFault::NoMemory),
        }
    }

    fn pause<W: Write>(&mut self, _writer: &mut W) -> Result<(), RunFault> {
        Ok(())
    }
}
