//! The numbers that connections have.

ghost use Rattle.std.specs.Prelude.{◌≡◌, Some};
ghost use Rattle.xns_host.specs.Hosting.{has_guest};
ghost use Rattle.xns_host.specs.Numbers.{IsNumberFrom};

use crate::guest::Guest;

/// Whether a connection is in a place.
fn is_taken(place: &Option<Guest>) -> bool
    ensures { result ≡ has_guest (Some place.now) }
{
    place.is_some()
}

/// The first number from this one on that a connection has. `None`: no connection has one.
pub fn number_from(guests: &[Option<Guest>], from: usize) -> Option<usize>
    ensures { IsNumberFrom guests.now from result }
{
    for number in from..guests.len() {
        if is_taken(&guests[number]) {
            return Some(number);
        }
    }
    None
}
