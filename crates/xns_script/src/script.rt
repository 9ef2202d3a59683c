//! What the lines of a simulation say together.
ghost use Rattle.std.specs.Prelude.{◌≡◌, map, true};
ghost use Rattle.courier_calls.specs.Calls.{call_model};
ghost use Rattle.xns_script.specs.Saying.{are_said};

use crate::command::Command;
use crate::reading::read_command;
use courier_calls::Call;
use item_world::Event;
use std::alloc::{AllocError, Global};

/// The calls and events of lines, in order, up to the first line that is refused.
#[derive(Drop)]
pub struct Script {
    alloc: Global,
    calls: Vec<Call>,
    events: Vec<Event>,
    refused: Option<usize>,
    ghost said: { are_said (map call_model calls.items) ≡ true },
}

impl Script {
    ghost use Rattle.std.specs.Prelude.{◌≤◌, ◌+◌, ◌++◌, ℕ, List, [], ◌∷◌, OnErr, OnOk, length};
    ghost use Rattle.std.specs.List.{All};
    ghost use Rattle.courier_calls.specs.Calls.{CallFits};
    ghost use Rattle.courier_calls.specs.Tally.{tally};
    ghost use Rattle.xns_script.specs.Reading.{HasReadLines};

    /// A script that has read nothing.
    pub fn new(alloc: Global) -> Script
        ensures { HasReadLines result [] }
    {
        Script {
            alloc,
            calls: Vec::new(alloc),
            events: Vec::new(alloc),
            refused: None,
        }
    }

    /// Reads one more line, which has this number. After the first line that is refused, no line is read.
    ///
    /// # Errors
    /// Where memory is refused; the script is then as it was.
    pub fn read_line(&mut self, number: usize, line: &[u8]) -> Result<(), AllocError>
        requires short { length line.now ≤ 4096 }
        ensures ok { OnOk result ((lines : List (List ℕ)) → number ≡ length lines + 1 → HasReadLines self.old lines →
            HasReadLines self.new (lines ++ line.now ∷ [])) }
        ensures err { OnErr result ((lines : List (List ℕ)) → HasReadLines self.old lines → HasReadLines self.new lines) }
    {
        if self.refused.is_some() {
            return Ok(());
        }
        match read_command(self.alloc, line)? {
            None => {
                self.refused = Some(number);
                Ok(())
            }
            Some(Command::Skip) => Ok(()),
            Some(Command::Call(call)) => {
                self.calls.push(call)?;
                Ok(())
            }
            Some(Command::Happen(event)) => {
                self.events.push(event)?;
                Ok(())
            }
        }
    }

    /// The number of the first line that is refused; lines count from 1. `None` where no line is refused.
    pub fn refused(&self) -> Option<usize>
        ensures { result ≡ self.now.refused }
    {
        self.refused
    }

    /// The calls that are to be made. Each may be made of the tally.
    pub fn calls(&self) -> &[Call]
        ensures value { result.now ≡ self.now.calls.items }
        ensures fit { All (CallFits tally.table) (map call_model result.now) }
    {
        self.calls.as_slice()
    }

    /// The events of the connection.
    pub fn events(&self) -> &[Event]
        ensures { result.now ≡ self.now.events.items }
    {
        self.events.as_slice()
    }
}
