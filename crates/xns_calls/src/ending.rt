//! How what a connection keeps is read at the end of the input.
ghost use Rattle.std.specs.Prelude.{◌≡◌, ◌<◌, IfSome, OnErr, OnOk, true};
ghost use Rattle.std.specs.Option.{is_some};
ghost use Rattle.xns_calls.specs.AtEnd.{both_ended, end_line as end_line_of, end_turn as end_turn_of, first_in, own_ended};
ghost use Rattle.xns_calls.specs.Exchange.{Continues, scene, scene_of};
ghost use Rattle.xns_calls.specs.Numbers.{most_numbers};

use crate::both_flows::BothFlows;
use crate::bringing::bring;
use crate::exchange::reach_other;
use crate::first_kept::FirstKept;
use crate::heading::Heading;
use crate::scratch::Scratch;
use crate::settling::first_line;
use crate::side::Side;
use std::alloc::AllocError;
use xns_lines::Page;

/// The first item that a flow keeps, as it is read at the end.
fn first_at_end(side: &Side) -> Option<FirstKept>
    ensures value { result ≡ first_in side.now.track }
    ensures bound { IfSome result (λ first. first.number < most_numbers) }
{
    let track = side.track.as_ref()?;
    track.early.first_at_end()
}

/// The line that brought the item captured first of those that a flow keeps.
fn end_line(side: &Side) -> Option<usize>
    ensures { result ≡ end_line_of side.now.track }
{
    let first = first_at_end(side)?;
    Some(first.line)
}

/// Of two flows, the one that keeps the item captured first, if one is kept: whether it is the one behind.
fn end_turn(own: &Side, other: &Side) -> Option<bool>
    ensures { result ≡ end_turn_of own.now.track other.now.track }
{
    first_line(end_line(own), end_line(other))
}

/// Reads the first item that a flow keeps, if it keeps one, once the flow behind is brought to what has to be read before.
#[tactic(auto, unfolding(crate::specs::AtEnd::own_ended))]
fn end_own(flows: &mut BothFlows<'_>) -> Result<(), AllocError>
    ensures kept { Continues flows.old flows.new }
    ensures scene { OnOk result (scene_of flows.new ≡ own_ended flows.old.heading (scene_of flows.old)) }
{
    let Some(first) = first_at_end(flows.own) else {
        return Ok(());
    };
    reach_other(flows, first.acknowledged)?;
    bring(flows, first.number + 1)
}

/// Reads all that two flows keep, item by item.
fn end_all(flows: &mut BothFlows<'_>) -> Result<(), AllocError>
    ensures kept { Continues flows.old flows.new }
    ensures scene { OnOk result (scene_of flows.new ≡ both_ended flows.old.heading (scene_of flows.old)) }
{
    while let Some(is_other) = end_turn(flows.own, flows.other) {
        flows.in_turn(is_other, end_own)?;
    }
    Ok(())
}

/// Reads all that two flows keep, as at the end of the input. Memory is refused only where one of them keeps an item.
#[tactic(auto, using(crate::proofs::LessAtEnd::turn_end))]
pub fn end_flows(
    scratch: &mut Scratch,
    page: &mut Page,
    heading: &Heading<'_>,
    own: &mut Side,
    other: &mut Side,
) -> Result<(), AllocError>
    ensures front { page.new.text.front ≡ page.old.text.front }
    ensures memory { OnErr result (is_some (end_turn_of own.old.track other.old.track) ≡ true) }
    ensures scene { OnOk result (scene own.new other.new page.new ≡ both_ended heading.now (scene own.old other.old page.old)) }
{
    if end_turn(own, other).is_none() {
        return Ok(());
    }
    let mut flows = BothFlows {
        scratch,
        page,
        heading: *heading,
        own,
        other,
    };
    end_all(&mut flows)
}
