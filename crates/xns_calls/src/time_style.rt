//! Which times a printer prints, by its type.
use crate::times::Times;

/// Which times are printed, as a type: what the packets of a capture say is then a matter of the printer's type alone.
pub trait TimeStyle: Copy {
    ghost use Rattle.std.specs.Prelude.{◌≡◌};
    ghost use Rattle.xns_calls.specs.declared.times.Times.{Times};

    // The times that are printed.
    ghost style: { Times };

    /// The times that are printed.
    fn times(self) -> Times
        ensures { result ≡ style };
}

/// No times.
#[derive(Clone, Copy)]
pub(crate) struct NoTimes;

impl TimeStyle for NoTimes {
    ghost use Rattle.xns_calls.specs.declared.times.Times.TheVariants.{Hidden};

    ghost style = { Hidden };

    fn times(self) -> Times {
        Times::Hidden
    }
}

/// Times since 1970.
#[derive(Clone, Copy)]
pub(crate) struct AbsoluteTimes;

impl TimeStyle for AbsoluteTimes {
    ghost use Rattle.xns_calls.specs.declared.times.Times.TheVariants.{Absolute};

    ghost style = { Absolute };

    fn times(self) -> Times {
        Times::Absolute
    }
}

/// Times since the first frame.
#[derive(Clone, Copy)]
pub(crate) struct RelativeTimes;

impl TimeStyle for RelativeTimes {
    ghost use Rattle.xns_calls.specs.declared.times.Times.TheVariants.{Relative};

    ghost style = { Relative };

    fn times(self) -> Times {
        Times::Relative
    }
}
