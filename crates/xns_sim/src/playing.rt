//! The text of a script: its first refused line, or the trace of its play.
ghost use Rattle.std.specs.Prelude.{◌≡◌, ◌++◌, ℕ, List, All, IfOk, codes, map};
ghost use Rattle.std.specs.Fmt.{decimal};
ghost use Rattle.courier_calls.specs.Calls.{CallFits, call_model};
ghost use Rattle.courier_calls.specs.Tally.{tally};
ghost use Rattle.xns_lines.specs.Report.{Adds, whole};
ghost use Rattle.xns_script.specs.Reading.{HasReadLines};
ghost use Rattle.item_world.specs.Setup.{IsGood};
ghost use Rattle.xns_sim.specs.Sim.Play.{play_text, script_setup};
ghost use Rattle.xns_sim.specs.Sim.{script_text};

use crate::trace::{Played, append_trace};
use courier_calls::{Call, Tally, tally_table};
use item_world::{Event, Setup};
use std::alloc::{AllocError, Global};
use xns_idp::Address;
use xns_lines::Report;
use xns_lines::numbers::append_decimal;
use xns_script::Script;
use xns_world::play_calls;

/// The text of the script: its first refused line, or the trace of its play.
pub(crate) fn play_script(alloc: Global, script: &Script) -> Result<Report, AllocError>
    ensures { IfOk result (λ text. (lines : List (List ℕ)) → HasReadLines script.now lines → whole text ≡ script_text lines) }
{
    let mut text = Report::new(alloc);
    match script.refused() {
        Some(number) => append_refusal(&mut text, number)?,
        None => append_play(alloc, &mut text, script.calls(), script.events())?,
    }
    Ok(text)
}

/// Appends the line which says that the line of this number is refused.
fn append_refusal(text: &mut Report, number: usize) -> Result<(), AllocError>
    ensures { Adds result text.old text.new (decimal number ++ codes " refused\n") }
{
    append_decimal(text, number)?;
    text.append(b" refused\n")
}

/// Appends the trace of the play of these calls, when these events happen.
fn append_play(
    alloc: Global,
    text: &mut Report,
    calls: &[Call],
    events: &[Event],
) -> Result<(), AllocError>
    requires fit { All (CallFits tally.table) (map call_model calls.now) }
    ensures { Adds result text.old text.new (play_text (map call_model calls.now) events.now) }
{
    let table = tally_table(alloc)?;
    let trace = play_calls(alloc, &setup(), &table, Tally::new(), calls, events)?;
    let played = Played {
        calls: calls.len(),
        carried: trace.carried.len(),
        seen: trace.seen.as_slice(),
        total: trace.service.total(),
        packets: trace.bag.as_slice().len(),
    };
    append_trace(text, &played)
}

/// The caller and the server of a script.
fn setup() -> Setup
    ensures value { result ≡ script_setup }
    ensures good { IsGood result }
{
    Setup {
        a: Address {
            network: 1,
            host: [0, 0, 0xaa, 0, 3, 4],
            socket: 0x400,
        },
        b: Address {
            network: 1,
            host: [0, 0, 0xaa, 0, 1, 2],
            socket: 5,
        },
        a_id: 0x1234,
        b_id: 0x5678,
        window: 4,
        backlog: 16,
    }
}
