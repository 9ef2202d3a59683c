//! What a host that C holds is asked, which leaves it as it is.

ghost use Rattle.std.specs.Prelude.{◌≡◌, count_by, Some, None};
ghost use Rattle.std.specs.Option.{is_some};
ghost use Rattle.xns_c.specs.Handle.{kept_of};
ghost use Rattle.xns_c.specs.Hosts.{TellsOfGuest, WalksOn, Wakes};
ghost use Rattle.xns_c.specs.Results.{no_host};
ghost use Rattle.xns_c.specs.Settings.{never};
ghost use Rattle.xns_c.specs.Structs.{address_of_struct};
ghost use Rattle.xns_c.specs.declared.kept_host.KeptHost.{KeptHost};

use crate::address::XnsAddress;
use crate::handling::Handle;
use crate::host_handle::XnsHost;
use crate::kept_host::NEVER;
use crate::results::{NO_CONNECTION, NO_HOST, NOTHING};
use crate::told::tell;
use std::alloc::Global;

/// When the host wants to be asked at the latest, for events and then for packets: 0 at once, 2^64 - 1 never. Never where there is no host.
#[unsafe(no_mangle)]
pub extern "C" fn xns_host_wake(alloc: Global, handle: &mut XnsHost) -> u64
    ensures wakes { (k : KeptHost) → kept_of handle.old ≡ Some k → Wakes k result }
    ensures none { kept_of handle.old ≡ None → result ≡ never }
    ensures same { kept_of handle.new ≡ kept_of handle.old }
{
    handle.ask(alloc, NEVER, |kept| kept.wake())
}

/// How many connections there are. 0 where there is no host.
#[unsafe(no_mangle)]
pub extern "C" fn xns_host_connections(alloc: Global, handle: &mut XnsHost) -> usize
    ensures count { (k : KeptHost) → kept_of handle.old ≡ Some k → result ≡ count_by is_some k.host.guests.items }
    ensures none { kept_of handle.old ≡ None → result ≡ 0 }
    ensures same { kept_of handle.new ≡ kept_of handle.old }
{
    handle.ask(alloc, 0, |kept| kept.host.connections())
}

/// Tells the first number from this one on that a connection has.
///
/// `NO_HOST`; `NOTHING` where none has one.
#[unsafe(no_mangle)]
pub extern "C" fn xns_host_number_from(
    alloc: Global,
    handle: &mut XnsHost,
    from: usize,
    number: &mut usize,
) -> u32
    ensures walks { (k : KeptHost) → kept_of handle.old ≡ Some k → WalksOn k from number.old number.new result }
    ensures none { kept_of handle.old ≡ None → (result ≡ no_host) × (number.new ≡ number.old) }
    ensures same { kept_of handle.new ≡ kept_of handle.old }
{
    let Some(kept) = handle.take(alloc) else {
        return NO_HOST;
    };
    let found = kept.host.number_from(from);
    handle.put(kept);
    tell(found, NOTHING, number)
}

/// Whom the connection with this number was opened to, or who opened it.
///
/// `NO_HOST`; `NO_CONNECTION`.
#[unsafe(no_mangle)]
pub extern "C" fn xns_host_peer(
    alloc: Global,
    handle: &mut XnsHost,
    number: usize,
    peer: &mut XnsAddress,
) -> u32
    ensures { TellsOfGuest (kept_of handle.old) (kept_of handle.new) number (λ g. g.peer) address_of_struct peer.old peer.new result }
{
    let Some(kept) = handle.take(alloc) else {
        return NO_HOST;
    };
    let found = kept.host.peer(number);
    handle.put(kept);
    let found = found.map(|found| XnsAddress::of(&found));
    tell(found, NO_CONNECTION, peer)
}

/// The tag of the connection with this number.
///
/// `NO_HOST`; `NO_CONNECTION`.
#[unsafe(no_mangle)]
pub extern "C" fn xns_host_tag(
    alloc: Global,
    handle: &mut XnsHost,
    number: usize,
    tag: &mut u64,
) -> u32
    ensures { TellsOfGuest (kept_of handle.old) (kept_of handle.new) number (λ g. g.tag) (λ t. t) tag.old tag.new result }
{
    let Some(kept) = handle.take(alloc) else {
        return NO_HOST;
    };
    let found = kept.host.tag(number);
    handle.put(kept);
    tell(found, NO_CONNECTION, tag)
}
