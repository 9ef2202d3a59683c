//! The lines of a simulation, one after the other.
ghost use Rattle.std.specs.Prelude.{◌≤◌, [], ◌∷◌, IfOk, length};
ghost use Rattle.xns_script.specs.Reading.{HasReadLines};

use std::alloc::{AllocError, Global};
use std::io;
use xns_script::Script;

/// The script of two lines.
fn script_of(alloc: Global, first: &[u8], second: &[u8]) -> Result<Script, AllocError>
    requires first { length first.now ≤ 4096 }
    requires second { length second.now ≤ 4096 }
    ensures { IfOk result (λ script. HasReadLines script (first.now ∷ second.now ∷ [])) }
{
    let mut script = Script::new(alloc);
    script.read_line(1, first)?;
    script.read_line(2, second)?;
    Ok(script)
}

/// Reads a call with the event that opens its connection, and then a call with a line that is refused.
pub fn read(rt: &HostRuntime) -> io::Result<()> {
    print_script(rt, b"tick a")?;
    print_script(rt, b"tick c")
}

/// Prints what a script has whose first line is a call.
fn print_script(rt: &HostRuntime, second: &[u8; 6]) -> io::Result<()> {
    let script = script_of(rt.alloc(), b"call add 5", second)?;
    match script.refused() {
        Some(number) => println!(rt; "line {number} is refused"),
        None => println!(rt;
            "{} call, {} event",
            script.calls().len(),
            script.events().len()
        ),
    }
}
