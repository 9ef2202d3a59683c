//! What the program is to do with an input.
use crate::mode::Mode;
use courier_programs::Program;
use std::alloc::Global;
use xns_calls::Times;

/// What the program is to do with an input: a command, and what it is given besides.
#[derive(Clone, Copy)]
pub struct Job<'a> {
    /// Where memory is taken from.
    pub alloc: Global,
    /// Which command runs.
    pub mode: Mode,
    /// Which times `calls` prints of a capture. Lines have none.
    pub times: Times,
    /// The programs by which `calls` names calls, where some are given.
    pub programs: Option<&'a [Program]>,
}
