//! `sim`: plays calls through a network that the lines of a script describe.
ghost use Rattle.std.specs.Prelude.{IfErr, IfOk, IfSome};
ghost use Rattle.xns_lines.specs.Printouts.{Prints};
ghost use Rattle.xns_sim.specs.Sim.{SimStopsIn, sim_printout};
ghost use Rattle.xns_sim.specs.Sim.Script.{HasReadAll};

use crate::playing::play_script;
use crate::script_taker::ScriptTaker;
use std::alloc::Global;
use std::io::{Read, Write};
use xns_lines::{MOST_LINES, RunFault, RunResult, take_lines, write_whole};
use xns_script::Script;

/// Reads the lines of a script, plays its calls through its events, and prints the trace. The result says whether a
/// line was refused.
///
/// Lines and their limits are those of [`xns_lines::take_lines`]. One byte 13 at a line's end is dropped; `xns_script`
/// says what a line can be. The calls are made in order, wherever their lines stand, by a caller whose network and
/// server are those of `xns_world::play_calls`; the server's service is a new tally. Where lines are refused, the text
/// names the first of them alone, and nothing is played.
///
/// # Errors
/// The errors are those of [`take_lines`], with at most [`MOST_LINES`] lines; `Write` where a write fails or takes no
/// byte; `NoMemory` where memory is refused. Nothing is written before the whole input is read and the whole text
/// made, so only a failed write leaves a prefix of the text.
pub fn sim<R: Read, W: Write>(alloc: Global, reader: &mut R, writer: &mut W) -> RunResult
    // Without a fault the text of the whole input is written, which is within the limits. After a failed write a prefix of that
    // text is written, and after any other fault nothing; the bytes that were read show a limit that was passed.
    ensures { Prints sim_printout result (R.remaining reader.old) (R.remaining reader.new) (W.contents writer.old) (W.contents writer.new) }
{
    let script = read_script(alloc, reader, writer)?;
    let Ok(text) = play_script(alloc, &script) else {
        return Err(RunFault::NoMemory);
    };
    write_whole(writer, text.as_slice())?;
    Ok(script.refused().is_some())
}

/// Reads the whole input. Nothing is written.
fn read_script<R: Read, W: Write>(
    alloc: Global,
    reader: &mut R,
    writer: &mut W,
) -> Result<Script, RunFault>
    ensures ok { IfOk result (λ script. IfSome (R.remaining reader.old) (λ input.
        HasReadAll script input (R.remaining reader.new) (W.contents writer.old) (W.contents writer.new))) }
    ensures err { IfErr result (λ fault. IfSome (R.remaining reader.old) (λ input.
        SimStopsIn input (R.remaining reader.new) (W.contents writer.old) (W.contents writer.new) fault)) }
{
    let mut taker = ScriptTaker::new(alloc);
    take_lines(alloc, MOST_LINES, reader, &mut taker, writer)?;
    Ok(taker.script)
}
