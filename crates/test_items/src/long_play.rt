//! Plays 140,000 items each way through a network that loses, repeats and reorders packets, and delivers old ones again.
use item_world::{Event, ItemTrace, Items, Side, play_items};
use std::alloc::{AllocError, Global};
use std::fmt::Write;
use test_setting::{WIDE_SETUP, numbered};

/// How many items go out each way in a round.
const ITEMS: usize = 8;

/// How many rounds are played.
const ROUNDS: usize = 17_500;

/// How many rounds ago a packet was sent that is delivered again: 24,000 items, within its lifetime.
const LATE: usize = 3_000;

/// How many rounds ago a packet was sent that lives no longer: 32,000 items.
const PAST: usize = 4_000;

/// Prints how many items went out and were handed up, and in how many packets.
pub fn show(rt: &HostRuntime) -> Result<(), anyhow::Error> {
    let setup = WIDE_SETUP;
    if !setup.is_good() {
        return Ok(());
    }
    let events = events(rt.alloc())?;
    show_trace(rt, &play_items(rt.alloc(), &setup, &events)?)
}

fn show_trace(rt: &HostRuntime, trace: &ItemTrace) -> Result<(), anyhow::Error> {
    let mut text = String::new(rt.alloc());
    tell(&mut text, trace)?;
    print!(rt; "{}", text.as_str())?;
    Ok(())
}

fn tell(text: &mut String, trace: &ItemTrace) -> Result<(), AllocError> {
    let sent = (trace.a_sent.as_slice().len(), trace.b_sent.as_slice().len());
    tell_both(text, "sent", sent)?;
    let handed = (in_order(&trace.b_handed), in_order(&trace.a_handed));
    tell_both(text, "handed up in order", handed)?;
    writeln!(text, "packets {}", trace.bag.as_slice().len())
}

/// A line of two counts.
fn tell_both(text: &mut String, what: &str, counts: (usize, usize)) -> Result<(), AllocError> {
    writeln!(text, "{what} {} and {}", counts.0, counts.1)
}

/// How many of the items, from the first on, have their place as their body.
fn in_order(items: &Items) -> usize {
    let mut number = 0_u32;
    for item in items.as_slice() {
        if item.body.as_slice() != number.to_be_bytes().as_slice() {
            break;
        }
        number = number.saturating_add(1);
    }
    number as usize
}

/// The number of the first packet of a round: two packets open the connection; in each round 16 items go out and get 16 replies,
/// and 8 go again and get 8 replies, which are 48 packets; and a late one is replied to. The past one comes nowhere. So 17,500 rounds
/// make 2 + 17,500 * 48 + 14,500 = 854,502 packets.
fn first_packet(round: usize) -> usize {
    round
        .saturating_mul(48)
        .saturating_add(round.saturating_sub(LATE))
        .saturating_add(2)
}

fn events(alloc: Global) -> Result<Vec<Event>, AllocError> {
    let mut events = Vec::new(alloc);
    events.push(Event::Tick(Side::A))?;
    events.push(Event::Deliver(0))?;
    events.push(Event::Deliver(1))?;
    for round in 0..ROUNDS {
        let loser = if round % 2 == 0 { Side::A } else { Side::B };
        push_round(alloc, &mut events, round, loser)?;
    }
    Ok(events)
}

/// In a round both sides send; the first packet of one side is lost, all others come in reverse, one of them twice; an old packet comes again;
/// what was lost is sent again with all that followed; and the items are handed up.
fn push_round(
    alloc: Global,
    events: &mut Vec<Event>,
    round: usize,
    loser: Side,
) -> Result<(), AllocError> {
    push_sends(alloc, events, round, loser)?;
    push_sends(alloc, events, round, loser.other())?;
    push_arrival(events, first_packet(round))?;
    push_late(events, round)?;
    events.push(Event::Tick(loser))?;
    push_again(events, first_again(round))?;
    push_takes(events)
}

/// The packet comes that is the number of this one and so many more.
fn push_packet(events: &mut Vec<Event>, first: usize, more: usize) -> Result<(), AllocError> {
    events.push(Event::Deliver(first.saturating_add(more)))?;
    Ok(())
}

/// The packets of a round come, but for the first, in reverse; the one in the middle comes twice; and one of the replies comes, the last of
/// 7 + 9, which acknowledges all that the other side sent.
fn push_arrival(events: &mut Vec<Event>, first: usize) -> Result<(), AllocError> {
    push_reversed(events, first.saturating_add(1), ITEMS - 1)?;
    push_reversed(events, first.saturating_add(ITEMS), ITEMS)?;
    push_packet(events, first, ITEMS)?;
    push_packet(events, first, 31)
}

/// A packet comes again that lives still, and one that lives no more, where there were so many rounds.
fn push_late(events: &mut Vec<Event>, round: usize) -> Result<(), AllocError> {
    for age in [LATE, PAST] {
        if round >= age {
            push_packet(events, first_packet(round - age), 0)?;
        }
    }
    Ok(())
}

/// The number of the first packet that a round sends again: before it are the 16 items, their replies, and the reply to a late one.
fn first_again(round: usize) -> usize {
    first_packet(round)
        .saturating_add(32)
        .saturating_add(usize::from(round >= LATE))
}

/// What was lost comes, with all that followed it, and the last reply to that.
fn push_again(events: &mut Vec<Event>, next: usize) -> Result<(), AllocError> {
    for packet in 0..ITEMS {
        push_packet(events, next, packet)?;
    }
    push_packet(events, next, 15)
}

/// Lets both sides hand up the items of a round.
fn push_takes(events: &mut Vec<Event>) -> Result<(), AllocError> {
    for _ in 0..ITEMS {
        events.push(Event::Take(Side::A))?;
        events.push(Event::Take(Side::B))?;
    }
    Ok(())
}

/// A side is given the items of a round, each with its place as its body.
fn push_sends(
    alloc: Global,
    events: &mut Vec<Event>,
    round: usize,
    side: Side,
) -> Result<(), AllocError> {
    let first = round.saturating_mul(ITEMS);
    for place in 0..ITEMS {
        let number = u32::try_from(first.saturating_add(place)).unwrap_or(u32::MAX);
        events.push(Event::Send(side, numbered(alloc, number)?))?;
    }
    Ok(())
}

/// Delivers this many packets, the last of them first.
fn push_reversed(events: &mut Vec<Event>, first: usize, count: usize) -> Result<(), AllocError> {
    for back in 1..=count {
        events.push(Event::Deliver(first.saturating_add(count - back)))?;
    }
    Ok(())
}
