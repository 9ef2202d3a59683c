//! The texts of faults.
use std::alloc::AllocError;
use std::error::Error;
use std::fmt::Write;
use xns_idp::IdpFault;
use xns_small::SmallFault;
use xns_spp::{Dropped, SendFault, SppFault};

const IDP: [IdpFault; 5] = [
    IdpFault::Short { have: 29 },
    IdpFault::LengthSmall { length: 28 },
    IdpFault::LengthLarge { length: 577 },
    IdpFault::Cut {
        needed: 34,
        have: 33,
    },
    IdpFault::BadSum {
        found: 0x5324,
        computed: 0xab,
    },
];

const SMALL: [SmallFault; 2] = [
    SmallFault::Short { have: 5 },
    SmallFault::EchoOperation { found: 3 },
];

const SEND: [SendFault; 4] = [
    SendFault::TooLong,
    SendFault::AttentionSize,
    SendFault::Exhausted,
    SendFault::Full,
];

const DROPPED: [Dropped; 7] = [
    Dropped::NotIdp,
    Dropped::NotSpp,
    Dropped::NotOurs,
    Dropped::AheadOfUs,
    Dropped::OutOfOrder,
    Dropped::NoRoom,
    Dropped::Repeat,
];

/// Prints what each fault says.
pub fn show(rt: &HostRuntime) -> Result<(), anyhow::Error> {
    let mut text = String::new(rt.alloc());
    tell(&mut text)?;
    print!(rt; "{}", text.as_str())?;
    Ok(())
}

fn tell(text: &mut String) -> Result<(), AllocError> {
    lines(text, &IDP)?;
    lines(text, &SMALL)?;
    line(text, &SppFault::Short { have: 11 })?;
    lines(text, &SEND)?;
    lines(text, &DROPPED)
}

/// A fault, and behind these words what it says.
pub fn put<E: Error>(text: &mut String, fault: &E, words: &str) -> Result<(), AllocError> {
    write!(text, "{fault:?}{words}{fault}")
}

/// A fault, and what it says.
fn line<E: Error>(text: &mut String, fault: &E) -> Result<(), AllocError> {
    put(text, fault, " says: ")?;
    text.push_str("\n")
}

/// Each fault, and what it says.
fn lines<E: Error>(text: &mut String, faults: &[E]) -> Result<(), AllocError> {
    for fault in faults {
        line(text, fault)?;
    }
    Ok(())
}
