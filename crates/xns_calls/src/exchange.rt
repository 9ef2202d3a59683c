//! What a packet does to the flows of its connection.
ghost use Rattle.std.specs.Option.{is_some};
ghost use Rattle.std.specs.Prelude.{◌≡◌, ◌<◌, IfSome, None, OnErr, OnOk, Some, true};
ghost use Rattle.xns_idp.specs.Packet.{packet_model};
ghost use Rattle.xns_calls.specs.Exchange.{Continues, after_content, after_new, after_packet};
ghost use Rattle.xns_calls.specs.Exchange.{begun as begun_of, brings_data, carried, first_track, new_number as new_number_of};
ghost use Rattle.xns_calls.specs.Exchange.{other_reached, own_reached, reached as reached_of, scene_of, wants_to_take};
ghost use Rattle.xns_calls.specs.Numbers.{most_numbers};

use crate::arrived::Arrived;
use crate::both_flows::BothFlows;
use crate::bringing::{bring, keep_item};
use crate::carried::Carried;
use crate::due::Due;
use crate::early_items::EarlyItems;
use crate::near::near;
use crate::side::Side;
use crate::speech::Speech;
use crate::texts::append_flow_line;
use crate::track::Track;
use courier_messages::Incoming;
use std::alloc::{AllocError, Global};
use xns_spp::MOST_PENDING;
use xns_spp::control::SYSTEM;

/// The number to which the flow is brought where this one takes effect. It is none where the flow keeps no items.
fn reached(side: &Side, number: Option<u64>) -> Option<u64>
    ensures { result ≡ reached_of side.now.track number }
{
    let number = number?;
    let track = side.track.as_ref()?;
    let last = track.early.last_kept_number()?;
    Some(number.min(last + 1))
}

/// What is kept of a flow whose first item has this field.
fn begun(alloc: Global, field: u16) -> Track
    ensures { result ≡ first_track field }
{
    if usize::from(field) < MOST_PENDING {
        Track {
            next: 0,
            early: EarlyItems::new(),
            speech: Speech::Hearing(Incoming::new(alloc)),
        }
    } else {
        Track {
            next: u64::from(field),
            early: EarlyItems::new(),
            speech: Speech::Waiting,
        }
    }
}

/// Begins a flow that has not begun, with its line.
#[tactic(auto, unfolding(crate::specs::Exchange::begun))]
#[inline(always)]
pub fn begin(flows: &mut BothFlows<'_>, arrived: &Arrived<'_>) -> Result<(), AllocError>
    ensures kept { Continues flows.old flows.new }
    ensures memory { OnErr result (flows.old.own.now.track ≡ None) }
    ensures scene { OnOk result (scene_of flows.new
        ≡ begun_of flows.old.heading (packet_model arrived.now.packet.now) arrived.now.header.now (scene_of flows.old)) }
{
    if flows.own.track.is_none() {
        let header = arrived.header;
        append_flow_line(&mut flows.page.text, &flows.heading, arrived.packet, header)?;
        flows.own.track = Some(begun(flows.scratch.alloc, header.sequence));
    }
    Ok(())
}

/// The number of an item of a flow that has begun, where it is no repeat.
#[inline(always)]
pub fn new_number_in(track: &Track, field: u16) -> Option<u64>
    ensures value { result ≡ new_number_of (Some track.now) field }
    ensures bound { IfSome result (λ number. number < most_numbers) }
{
    let number = near(track.next, field)?;
    if number < track.next || track.early.has(number) {
        return None;
    }
    Some(number)
}

/// The number of an item, where it is no repeat.
fn new_number(side: &Side, field: u16) -> Option<u64>
    ensures value { result ≡ new_number_of side.now.track field }
    ensures bound { IfSome result (λ number. number < most_numbers) }
{
    let track = side.track.as_ref()?;
    new_number_in(track, field)
}

/// Keeps the item of a packet, of a number that is no repeat, if its flow has begun.
fn take_new(
    flows: &mut BothFlows<'_>,
    number: u64,
    acknowledged: Option<u64>,
    arrived: &Arrived<'_>,
) -> Result<(), AllocError>
    requires { number < most_numbers }
    ensures kept { Continues flows.old flows.new }
    ensures scene { OnOk result (scene_of flows.new
        ≡ after_new flows.old.heading number (carried flows.old.heading acknowledged arrived.now.header.now arrived.now.content.now) (scene_of flows.old)) }
{
    let item = Carried {
        item: flows.scratch.item_of(arrived.header, arrived.content)?,
        acknowledged,
        line: flows.heading.origin.number,
    };
    keep_item(flows, number, item)
}

/// Brings the flow behind to what takes effect of it. Memory is refused only where that flow keeps items.
#[tactic(auto, unfolding(crate::specs::Exchange::other_reached))]
#[inline(always)]
pub fn reach_other(flows: &mut BothFlows<'_>, number: Option<u64>) -> Result<(), AllocError>
    ensures kept { Continues flows.old flows.new }
    ensures memory { OnErr result (is_some (reached_of flows.old.other.now.track number) ≡ true) }
    ensures scene { OnOk result (scene_of flows.new ≡ other_reached flows.old.heading number (scene_of flows.old)) }
{
    let Some(number) = reached(flows.other, number) else {
        return Ok(());
    };
    flows.turn();
    let done = bring(flows, number);
    flows.turn();
    done
}

/// Brings the packet's own flow to what takes effect of it. Memory is refused only where that flow keeps items.
#[tactic(auto, unfolding(crate::specs::Exchange::own_reached))]
fn reach_own(flows: &mut BothFlows<'_>, number: Option<u64>) -> Result<(), AllocError>
    ensures kept { Continues flows.old flows.new }
    ensures memory { OnErr result (is_some (reached_of flows.old.own.now.track number) ≡ true) }
    ensures scene { OnOk result (scene_of flows.new ≡ own_reached flows.old.heading number (scene_of flows.old)) }
{
    let Some(number) = reached(flows.own, number) else {
        return Ok(());
    };
    bring(flows, number)
}

/// Takes the item of a packet, if it brings one: its flow may begin with it. Memory is refused only where it begins or the item is new.
#[tactic(auto, unfolding(crate::specs::Exchange::after_content, crate::specs::Exchange::after_data), using(crate::proofs::Wanted::none_brings))]
fn take_content(
    flows: &mut BothFlows<'_>,
    acknowledged: Option<u64>,
    arrived: &Arrived<'_>,
) -> Result<(), AllocError>
    ensures kept { Continues flows.old flows.new }
    ensures memory { OnErr result (brings_data arrived.now.header.now flows.old.own.now.track ≡ true) }
    ensures scene { OnOk result (scene_of flows.new
        ≡ after_content flows.old.heading acknowledged (packet_model arrived.now.packet.now) arrived.now.header.now arrived.now.content.now (scene_of flows.old)) }
{
    if arrived.header.control & SYSTEM != 0 {
        return Ok(());
    }
    begin(flows, arrived)?;
    let Some(number) = new_number(flows.own, arrived.header.sequence) else {
        return Ok(());
    };
    take_new(flows, number, acknowledged, arrived)
}

/// Takes a packet of a flow: what takes effect of the flow behind, then its item, if it brings one, and then what takes effect of its
/// own flow. Memory is refused only where what takes effect brings a flow on, where its flow begins, or where its item is no repeat.
#[tactic(auto, unfolding(crate::specs::Exchange::after_packet), using(crate::proofs::Wanted::other_wants))]
pub fn take_kept(
    flows: &mut BothFlows<'_>,
    due: Due,
    arrived: &Arrived<'_>,
) -> Result<(), AllocError>
    ensures kept { Continues flows.old flows.new }
    ensures memory { OnErr result (wants_to_take due arrived.now.header.now (scene_of flows.old) ≡ true) }
    ensures scene { OnOk result (scene_of flows.new
        ≡ after_packet flows.old.heading due (packet_model arrived.now.packet.now) arrived.now.header.now arrived.now.content.now (scene_of flows.old)) }
{
    reach_other(flows, due.other)?;
    take_content(flows, due.acknowledged, arrived)?;
    reach_own(flows, due.own)
}
