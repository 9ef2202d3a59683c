//! How a packet is taken, and what is read then.
ghost use Rattle.std.specs.Prelude.{◌≡◌, ◌<◌, IfSome, OnErr, OnOk, true};
ghost use Rattle.xns_idp.specs.Packet.{packet_model};
ghost use Rattle.xns_calls.specs.Exchange.{Continues, scene, scene_of, wants_memory};
ghost use Rattle.xns_calls.specs.Numbers.{most_numbers};
ghost use Rattle.xns_calls.specs.Read.{begins_first as begins_first_of, comes_next, handled, is_alone as is_alone_of, keeps_none as keeps_none_of};

use crate::arrived::Arrived;
use crate::both_flows::BothFlows;
use crate::bringing::read_arrived;
use crate::due::Due;
use crate::exchange::{begin, take_kept};
use crate::heading::Heading;
use crate::near::near;
use crate::scratch::Scratch;
use crate::settling::{settle, waits_for_none};
use crate::side::Side;
use crate::track::Track;
use std::alloc::AllocError;
use xns_lines::Page;
use xns_spp::Header;
use xns_spp::control::SYSTEM;

/// Whether nothing is kept of a flow.
fn keeps_none(side: &Side) -> bool
    ensures { result ≡ keeps_none_of side.now.track }
{
    match &side.track {
        None => true,
        Some(track) => track.early.is_empty(),
    }
}

/// Whether an item of that number comes next and waits for nothing, neither flow keeps one, and nothing takes effect of its own.
#[inline(always)]
fn is_alone(number: u64, own: &Track, other: &Side, due: Due, header: &Header) -> bool
    ensures { result ≡ is_alone_of due header.now number own.now other.now.track }
{
    let is_plain = header.control & SYSTEM == 0 && !due.own.is_some();
    let is_first = number == own.next && own.early.is_empty();
    let is_unheld = keeps_none(other) && waits_for_none(other, due.given.other, due.acknowledged);
    (is_plain && is_first) && is_unheld
}

/// The number of a packet's item, where it is such an item.
#[inline(always)]
fn alone_number(own: &Side, other: &Side, due: Due, header: &Header) -> Option<u64>
    ensures value { result ≡ comes_next due header.now own.now.track other.now.track }
    ensures bound { IfSome result (λ number. number < most_numbers) }
{
    let track = own.track.as_ref()?;
    let number = near(track.next, header.sequence)?;
    if is_alone(number, track, other, due, header) {
        Some(number)
    } else {
        None
    }
}

/// Takes a packet of a flow that is no such item, and reads what can be read then.
#[tactic(auto, using(crate::proofs::Wanted::take_wants))]
#[inline(never)]
fn take_waiting(
    flows: &mut BothFlows<'_>,
    due: Due,
    arrived: &Arrived<'_>,
) -> Result<(), AllocError>
    requires { comes_next due arrived.now.header.now flows.now.own.now.track flows.now.other.now.track ≡ None }
    ensures kept { Continues flows.old flows.new }
    ensures memory { OnErr result (wants_memory due arrived.now.header.now (scene_of flows.old) ≡ true) }
    ensures scene { OnOk result (scene_of flows.new
        ≡ handled flows.old.heading due (packet_model arrived.now.packet.now) arrived.now.header.now arrived.now.content.now (scene_of flows.old)) }
{
    take_kept(flows, due, arrived)?;
    settle(flows, due.given)
}

/// Takes a packet of a flow, and reads what can be read then: the packet's own item where it lies, if that is all.
#[tactic(auto, using(crate::proofs::Wanted::take_wants))]
#[inline(always)]
fn take_begun(flows: &mut BothFlows<'_>, due: Due, arrived: &Arrived<'_>) -> Result<(), AllocError>
    ensures kept { Continues flows.old flows.new }
    ensures memory { OnErr result (wants_memory due arrived.now.header.now (scene_of flows.old) ≡ true) }
    ensures scene { OnOk result (scene_of flows.new
        ≡ handled flows.old.heading due (packet_model arrived.now.packet.now) arrived.now.header.now arrived.now.content.now (scene_of flows.old)) }
{
    if let Some(number) = alone_number(flows.own, flows.other, due, arrived.header) {
        return read_arrived(flows, number, arrived);
    }
    take_waiting(flows, due, arrived)
}

/// Whether a data packet begins its flow, and the flow behind keeps nothing.
fn begins_first(own: &Side, other: &Side, header: &Header) -> bool
    ensures { result ≡ begins_first_of header.now own.now.track other.now.track }
{
    let is_new = header.control & SYSTEM == 0 && !own.has_begun();
    is_new && keeps_none(other)
}

/// Takes a packet that begins its flow, where the flow behind keeps nothing: the flow begins first.
#[tactic(auto, using(crate::proofs::AtOnce::first_wants))]
#[inline(never)]
fn take_first(flows: &mut BothFlows<'_>, due: Due, arrived: &Arrived<'_>) -> Result<(), AllocError>
    requires { begins_first_of arrived.now.header.now flows.now.own.now.track flows.now.other.now.track ≡ true }
    ensures kept { Continues flows.old flows.new }
    ensures memory { OnErr result (wants_memory due arrived.now.header.now (scene_of flows.old) ≡ true) }
    ensures scene { OnOk result (scene_of flows.new
        ≡ handled flows.old.heading due (packet_model arrived.now.packet.now) arrived.now.header.now arrived.now.content.now (scene_of flows.old)) }
{
    begin(flows, arrived)?;
    take_begun(flows, due, arrived)
}

/// Takes a packet of a flow, and reads what can be read then. Memory is refused only where what takes effect brings a flow on, where its
/// flow begins, where its item is no repeat, or where an item can be read.
#[inline(always)]
pub fn take_packet(
    scratch: &mut Scratch,
    page: &mut Page,
    heading: &Heading<'_>,
    own: &mut Side,
    other: &mut Side,
    due: Due,
    arrived: &Arrived<'_>,
) -> Result<(), AllocError>
    ensures front { page.new.text.front ≡ page.old.text.front }
    ensures memory { OnErr result (wants_memory due arrived.now.header.now (scene own.old other.old page.old) ≡ true) }
    ensures scene { OnOk result (scene own.new other.new page.new
        ≡ handled heading.now due (packet_model arrived.now.packet.now) arrived.now.header.now arrived.now.content.now (scene own.old other.old page.old)) }
{
    let begins = begins_first(own, other, arrived.header);
    let mut flows = BothFlows {
        scratch,
        page,
        heading: *heading,
        own,
        other,
    };
    if begins {
        return take_first(&mut flows, due, arrived);
    }
    take_begun(&mut flows, due, arrived)
}
