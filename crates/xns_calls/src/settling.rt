//! How the items that are kept are read, as soon as they may be.
ghost use Rattle.std.specs.Prelude.{◌≡◌, OnErr, OnOk, true};
ghost use Rattle.std.specs.Option.{is_some};
ghost use Rattle.xns_calls.specs.Exchange.{Continues, scene_of};
ghost use Rattle.xns_calls.specs.Read.{settled};
ghost use Rattle.xns_calls.specs.Turns.{first_line as first_line_of, is_behind as is_behind_of, waits_for_none as waits_for_none_of, next_turn as next_turn_of};
ghost use Rattle.xns_calls.specs.Turns.{readable as readable_of};

use crate::both_flows::BothFlows;
use crate::bringing::read_first;
use crate::given::Given;
use crate::side::Side;
use std::alloc::AllocError;
use xns_spp::MOST_PENDING;

/// Whether the items below a number were read or are waited for no longer, or no true packet acknowledges it.
fn is_behind(next: u64, given: u64, number: u64) -> bool
    ensures { result ≡ is_behind_of next given number }
{
    number <= next.max(given) || number.saturating_sub(next) > MOST_PENDING as u64
}

/// Whether an item whose packet acknowledges so much waits for nothing of the flow behind.
pub fn waits_for_none(behind: &Side, given: u64, acknowledged: Option<u64>) -> bool
    ensures { result ≡ waits_for_none_of behind.now.track given acknowledged }
{
    match (&behind.track, acknowledged) {
        (Some(track), Some(number)) => is_behind(track.next, given, number),
        _ => true,
    }
}

/// The line of the first item that a flow keeps, where it comes next and waits for nothing of the flow behind.
#[inline(always)]
fn readable(own: &Side, behind: &Side, given: u64) -> Option<usize>
    ensures { result ≡ readable_of own.now.track behind.now.track given }
{
    let track = own.track.as_ref()?;
    let first = track.early.first()?;
    if first.number <= track.next && waits_for_none(behind, given, first.acknowledged) {
        Some(first.line)
    } else {
        None
    }
}

/// Of two flows, the one whose line is first, if there is one: whether it is the one behind.
pub fn first_line(own: Option<usize>, other: Option<usize>) -> Option<bool>
    ensures { result ≡ first_line_of own other }
{
    match (own, other) {
        (None, None) => None,
        (Some(_), None) => Some(false),
        (None, Some(_)) => Some(true),
        (Some(own_line), Some(other_line)) => Some(other_line < own_line),
    }
}

/// The flow of which an item is read next, if there is one: whether it is the one behind.
#[inline(always)]
fn next_turn(own: &Side, other: &Side, given: Given) -> Option<bool>
    ensures { result ≡ next_turn_of given own.now.track other.now.track }
{
    first_line(
        readable(own, other, given.other),
        readable(other, own, given.own),
    )
}

/// Reads what two flows keep, item by item, until neither has one that can be read.
fn read_all(flows: &mut BothFlows<'_>, given: Given) -> Result<(), AllocError>
    ensures kept { Continues flows.old flows.new }
    ensures scene { OnOk result (scene_of flows.new ≡ settled flows.old.heading given (scene_of flows.old)) }
{
    while let Some(is_other) = next_turn(flows.own, flows.other, given) {
        flows.in_turn(is_other, read_first)?;
    }
    Ok(())
}

/// Reads what two flows keep, until neither has an item that can be read. Memory is refused only where one has.
#[tactic(auto, using(crate::proofs::LessKept::turn_end))]
pub fn settle(flows: &mut BothFlows<'_>, given: Given) -> Result<(), AllocError>
    ensures kept { Continues flows.old flows.new }
    ensures memory { OnErr result (is_some (next_turn_of given flows.old.own.now.track flows.old.other.now.track) ≡ true) }
    ensures scene { OnOk result (scene_of flows.new ≡ settled flows.old.heading given (scene_of flows.old)) }
{
    if next_turn(flows.own, flows.other, given).is_none() {
        return Ok(());
    }
    read_all(flows, given)
}
