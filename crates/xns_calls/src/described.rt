//! By which programs a printer names calls, by its type.
use std::marker::Brand;

/// By which programs calls are named, as a type: what lines or packets say is then a matter of the printer's type alone.
pub(crate) trait Described {
    ghost use Rattle.xns_calls.specs.Naming.{Programs};

    // The programs by which calls are named.
    ghost programs: { Programs };
}

impl Described for Brand {
    ghost use Rattle.std.specs.Prelude.{None};

    ghost programs = { None };
}
