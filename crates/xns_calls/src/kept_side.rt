//! The flow of a connection that begins behind the other.
ghost use Rattle.std.specs.Prelude.{◌≡◌, IfOk, None, OnErr, OnOk, true};
ghost use Rattle.std.specs.Option.{is_some};
ghost use Rattle.xns_idp.specs.Packet.{packet_model};
ghost use Rattle.xns_spp.specs.Header.{is_system};
ghost use Rattle.xns_calls.specs.Acknowledged.{acknowledged_of, if_begun, new_ahead};
ghost use Rattle.xns_calls.specs.AtEnd.{both_ended, end_turn};
ghost use Rattle.xns_calls.specs.Exchange.{brings_new, no_side, scene, scene_seen, wants_memory};
ghost use Rattle.xns_calls.specs.Read.{handled};

use crate::aheads::Aheads;
use crate::arrived::Arrived;
use crate::due::Due;
use crate::ending::end_flows;
use crate::heading::Heading;
use crate::scratch::Scratch;
use crate::side::Side;
use crate::taking::take_packet;
use std::alloc::{AllocError, Global};
use std::marker::Model;
use xns_lines::Page;
use xns_spp::control::SYSTEM;

/// The flow of a connection that begins behind the other, in memory that is taken when it begins. Contracts see it as a side.
#[derive(Drop)]
pub struct KeptSide {
    side: Option<Box<Side>>,
}

impl Model for KeptSide {
    ghost use Rattle.std.specs.Prelude.{option_map};
    ghost use Rattle.std.specs.Option.{unwrap_or};
    ghost use Rattle.xns_calls.specs.Exchange.{no_side};
    ghost use Rattle.xns_calls.specs.declared.side.Side.{Side as SideModel};

    ghost Value = { SideModel };

    ghost view = { λ k. unwrap_or (option_map (λ b. b.value) k.side) no_side };
}

/// A flow that has not begun, in memory of its own. The only error is want of memory.
fn boxed_none(alloc: Global) -> Result<Box<Side>, AllocError>
    ensures { IfOk result (λ side. side.value ≡ no_side) }
{
    match Box::new(alloc, Side::none()) {
        Ok(side) => Ok(side),
        Err(_) => Err(AllocError),
    }
}

/// Takes a packet of a flow where the one behind it has not begun.
#[inline(always)]
fn take_alone(
    scratch: &mut Scratch,
    page: &mut Page,
    heading: &Heading<'_>,
    own: &mut Side,
    due: Due,
    arrived: &Arrived<'_>,
) -> Result<(), AllocError>
    ensures front { page.new.text.front ≡ page.old.text.front }
    ensures memory { OnErr result (wants_memory due arrived.now.header.now (scene own.old no_side page.old) ≡ true) }
    ensures scene { OnOk result (scene own.new no_side page.new
        ≡ handled heading.now due (packet_model arrived.now.packet.now) arrived.now.header.now arrived.now.content.now (scene own.old no_side page.old)) }
{
    let mut other = Side::none();
    take_packet(scratch, page, heading, own, &mut other, due, arrived)
}

/// Takes a system packet of a flow that has not begun, which may say what has come of the one behind it.
fn take_before(
    scratch: &mut Scratch,
    page: &mut Page,
    heading: &Heading<'_>,
    other: &mut Side,
    due: Due,
    arrived: &Arrived<'_>,
) -> Result<(), AllocError>
    requires { is_system arrived.now.header.now ≡ true }
    ensures front { page.new.text.front ≡ page.old.text.front }
    ensures memory { OnErr result (wants_memory due arrived.now.header.now (scene no_side other.old page.old) ≡ true) }
    ensures scene { OnOk result (scene no_side other.new page.new
        ≡ handled heading.now due (packet_model arrived.now.packet.now) arrived.now.header.now arrived.now.content.now (scene no_side other.old page.old)) }
{
    let mut own = Side::none();
    take_packet(scratch, page, heading, &mut own, other, due, arrived)
}

/// Reads all that a flow keeps, as at the end of the input, where the one behind it has not begun.
fn end_alone(
    scratch: &mut Scratch,
    page: &mut Page,
    heading: &Heading<'_>,
    own: &mut Side,
) -> Result<(), AllocError>
    ensures front { page.new.text.front ≡ page.old.text.front }
    ensures memory { OnErr result (is_some (end_turn own.old.track None) ≡ true) }
    ensures scene { OnOk result (scene own.new no_side page.new ≡ both_ended heading.now (scene own.old no_side page.old)) }
{
    let mut other = Side::none();
    end_flows(scratch, page, heading, own, &mut other)
}

impl KeptSide {
    /// A flow that has not begun.
    pub fn none() -> KeptSide
        ensures { result ≡ no_side }
    {
        KeptSide { side: None }
    }

    /// Whether it has begun.
    pub fn has_begun(&self) -> bool
        ensures { result ≡ is_some self.now.track }
    {
        match &self.side {
            None => false,
            Some(side) => side.as_ref().has_begun(),
        }
    }

    /// The number that a field acknowledges of it. Beside it stands that number once more where it is ahead: more than its next item
    /// and more than the last number that is kept.
    #[inline(always)]
    pub fn acknowledged(&self, kept: &Aheads, field: u16) -> (Option<u64>, Option<u64>)
        ensures number { result.0 ≡ acknowledged_of self.now.track field }
        ensures ahead { result.1 ≡ new_ahead self.now.track kept.now field }
    {
        match &self.side {
            None => (None, None),
            Some(side) => side.as_ref().acknowledged(kept, field),
        }
    }

    /// The number, where the flow has begun.
    pub fn due(&self, number: Option<u64>) -> Option<u64>
        ensures { result ≡ if_begun self.now.track number }
    {
        match &self.side {
            None => None,
            Some(side) => side.as_ref().due(number),
        }
    }

    /// Whether an item with this field begins the flow, or is no repeat.
    pub fn brings_new(&self, field: u16) -> bool
        ensures { result ≡ brings_new self.now.track field }
    {
        match &self.side {
            None => true,
            Some(side) => side.as_ref().brings_new(field),
        }
    }

    /// Takes a packet of this flow or of the one that began before, as its heading says. Memory is refused only where [`take_packet`] may
    /// refuse it.
    #[inline(always)]
    pub fn take(
        &mut self,
        scratch: &mut Scratch,
        page: &mut Page,
        heading: &Heading<'_>,
        first: &mut Side,
        due: Due,
        arrived: &Arrived<'_>,
    ) -> Result<(), AllocError>
        ensures front { page.new.text.front ≡ page.old.text.front }
        ensures memory { OnErr result
            (wants_memory due arrived.now.header.now (scene_seen heading.now.is_behind first.old self.old page.old) ≡ true) }
        ensures scene { OnOk result (scene_seen heading.now.is_behind first.new self.new page.new
            ≡ handled heading.now due (packet_model arrived.now.packet.now) arrived.now.header.now arrived.now.content.now
            (scene_seen heading.now.is_behind first.old self.old page.old)) }
    {
        if !heading.is_behind {
            return match &mut self.side {
                Some(side) => take_packet(
                    scratch,
                    page,
                    heading,
                    first,
                    side.as_mut(),
                    due,
                    arrived,
                ),
                None => take_alone(scratch, page, heading, first, due, arrived),
            };
        }
        match &mut self.side {
            Some(side) => take_packet(scratch, page, heading, side.as_mut(), first, due, arrived),
            None if arrived.header.control & SYSTEM != 0 => {
                take_before(scratch, page, heading, first, due, arrived)
            }
            None => {
                let mut side = boxed_none(scratch.alloc)?;
                take_packet(scratch, page, heading, side.as_mut(), first, due, arrived)?;
                self.side = Some(side);
                Ok(())
            }
        }
    }

    /// Reads all that both flows keep, as at the end of the input. Memory is refused only where one of them keeps an item.
    pub fn end_both(
        &mut self,
        scratch: &mut Scratch,
        page: &mut Page,
        heading: &Heading<'_>,
        first: &mut Side,
    ) -> Result<(), AllocError>
        ensures front { page.new.text.front ≡ page.old.text.front }
        ensures memory { OnErr result (is_some (end_turn first.old.track self.old.track) ≡ true) }
        ensures scene { OnOk result (scene first.new self.new page.new ≡ both_ended heading.now (scene first.old self.old page.old)) }
    {
        match &mut self.side {
            Some(side) => end_flows(scratch, page, heading, first, side.as_mut()),
            None => end_alone(scratch, page, heading, first),
        }
    }
}
