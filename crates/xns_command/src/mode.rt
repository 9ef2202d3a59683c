//! What the program can do.
ghost use Rattle.std.specs.Prelude.{◌≡◌, ◌≢◌, IfNone, IfSome};
ghost use Rattle.xns_command.specs.declared.mode.Mode.{Mode};
ghost use Rattle.xns_command.specs.Modes.{name_of};

/// What the program is asked to do.
#[derive(Clone, Copy, Debug, PartialEq, Eq)]
pub enum Mode {
    /// Print what each line of the input says.
    Dump,
    /// Print the calls that the input's packets carry, and what came back.
    Calls,
    /// Play the calls that the input's lines make.
    Sim,
}

impl Mode {
    /// The mode that a subcommand of that name asks for, if there is one.
    pub fn named(name: &str) -> Option<Mode>
        ensures some { IfSome result (λ mode. name.entry.now ≡ name_of mode) }
        ensures none { IfNone result ((mode : Mode) → name.entry.now ≢ name_of mode) }
    {
        match name {
            "dump" => Some(Mode::Dump),
            "calls" => Some(Mode::Calls),
            "sim" => Some(Mode::Sim),
            _ => None,
        }
    }
}
