use std::alloc::Global;
use std::io::{Read, Write};
use xns_calls::calls;
use xns_dump::dump;
use xns_lines::RunFault;
use xns_sim::sim;

/// How a run ended, and what it wrote.
#[derive(Drop)]
pub struct Outcome {
    pub answer: Result<bool, RunFault>,
    pub text: Vec<u8>,
}

/// The command that is run over a text.
#[derive(Clone, Copy)]
pub enum Mode {
    Dump,
    Calls,
    Sim,
}

impl Mode {
    /// `Calls` and `Sim` for their names, else `Dump`.
    pub fn named(name: &str) -> Mode {
        match name {
            "calls" => Mode::Calls,
            "sim" => Mode::Sim,
            _ => Mode::Dump,
        }
    }

    /// Reads the input, and writes the text that the command makes of it.
    pub fn run<R: Read, W: Write>(
        self,
        alloc: Global,
        reader: &mut R,
        writer: &mut W,
    ) -> Result<bool, RunFault> {
        match self {
            Mode::Dump => dump(alloc, reader, writer),
            Mode::Calls => calls(alloc, None, reader, writer),
            Mode::Sim => sim(alloc, reader, writer),
        }
    }

    /// The outcome for the input, where no write fails.
    pub fn outcome<R: Read>(self, alloc: Global, reader: &mut R) -> Outcome {
        let mut text = Vec::new(alloc);
        let answer = self.run(alloc, reader, &mut text);
        Outcome { answer, text }
    }
}
