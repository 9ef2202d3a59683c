//! What the words of the command line ask for.
use xns_calls::Times;
use xns_command::Mode;

/// What the words of the command line ask for.
#[derive(Debug, Drop)]
pub enum Request<'a> {
    /// To run a mode.
    Run {
        mode: Mode,
        /// The name of the file that the mode reads, if one is named; `-` stands for standard input.
        file: Option<&'a str>,
        /// Which times of a capture the mode prints.
        times: Times,
        /// The names of the files that describe the programs by which calls are named, in order; `-` stands for standard input.
        descriptions: Vec<&'a str>,
    },
    /// To print the programs that files describe.
    Programs {
        /// The names of the files, in order; `-` stands for standard input.
        files: Vec<&'a str>,
    },
}
