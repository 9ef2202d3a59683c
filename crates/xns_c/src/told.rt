//! What was found, told to C in its own memory.

ghost use Rattle.xns_c.specs.Given.{IsTold};

use crate::results::OK;

/// Tells what was found. Where nothing was, `missing` is returned, and what stands at the place stays.
pub fn tell<T: Drop>(found: Option<T>, missing: u32, place: &mut T) -> u32
    ensures { IsTold found missing place.old place.new result }
{
    match found {
        Some(found) => {
            *place = found;
            OK
        }
        None => missing,
    }
}

/// Tells two things that were found together. Where nothing was, `missing` is returned, and what stands at both places stays.
pub fn tell_both<T: Drop, U: Drop>(
    found: Option<(T, U)>,
    missing: u32,
    first: &mut T,
    second: &mut U,
) -> u32
    ensures { IsTold found missing (first.old, second.old) (first.new, second.new) result }
{
    match found {
        Some(found) => {
            (*first, *second) = found;
            OK
        }
        None => missing,
    }
}
