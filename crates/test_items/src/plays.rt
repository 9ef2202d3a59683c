//! Plays of items over worked examples, and over steps that look random.
use crate::generator::Generator;
use crate::step::Step;
use item_world::{Bag, Event, ItemTrace, Items, Setup, Side, play_items};
use std::alloc::{AllocError, Global};
use std::fmt::{Debug, Write};
use test_setting::{CALLER, ECHO_REQUEST, FIRST, SETUP};
use xns_idp::{Address, HEADER_BYTES};

/// Prints the traces of the steps, and which setups are good.
pub fn show(rt: &HostRuntime) -> Result<(), anyhow::Error> {
    let mut text = String::new(rt.alloc());
    tell(rt.alloc(), &mut text)?;
    print!(rt; "{}", text.as_str())?;
    Ok(())
}

fn tell(alloc: Global, text: &mut String) -> Result<(), AllocError> {
    tell_each(alloc, text)?;
    tell_reversed(alloc, text)?;
    tell_nothing(alloc, text)?;
    tell_setups(text)?;
    tell_random(alloc, text)
}

fn events(alloc: Global, steps: &[Step]) -> Result<Vec<Event>, AllocError> {
    let mut events = Vec::new(alloc);
    for step in steps {
        events.push(step.event(alloc)?)?;
    }
    Ok(events)
}

/// A play of the steps; `None` where the setup is not good.
fn play(alloc: Global, steps: &[Step]) -> Result<Option<ItemTrace>, AllocError> {
    if !SETUP.is_good() {
        return Ok(None);
    }
    let events = events(alloc, steps)?;
    Ok(Some(play_items(alloc, &SETUP, &events)?))
}

/// The numbers in the bodies of items.
fn numbers(alloc: Global, items: &Items) -> Result<Vec<u32>, AllocError> {
    let mut numbers = Vec::new(alloc);
    for item in items.as_slice() {
        let number = match item.body.as_slice() {
            [a, b, c, d] => u32::from_be_bytes([*a, *b, *c, *d]),
            _ => u32::MAX,
        };
        numbers.push(number)?;
    }
    Ok(numbers)
}

/// A value, behind what stands before it.
fn put<T: Debug>(text: &mut String, before: &str, value: &T) -> Result<(), AllocError> {
    write!(text, "{before}{value:?}")
}

/// A value at the end of a line, behind what stands before it.
fn end<T: Debug>(text: &mut String, before: &str, value: &T) -> Result<(), AllocError> {
    writeln!(text, "{before}{value:?}")
}

fn end_numbers(
    alloc: Global,
    text: &mut String,
    before: &str,
    items: &Items,
) -> Result<(), AllocError> {
    end(text, before, &numbers(alloc, items)?)
}

/// Three items go out, and come last one first; the first comes twice, and lets all three be handed up.
const REVERSED: [Step; 18] = [
    Step::Tick(Side::A),
    Step::Deliver(0),
    Step::Deliver(1),
    Step::Send(Side::A, 1),
    Step::Send(Side::A, 2),
    Step::Send(Side::A, 3),
    Step::Deliver(4),
    Step::Deliver(3),
    Step::Deliver(2),
    Step::Deliver(2),
    Step::Take(Side::B),
    Step::Take(Side::B),
    Step::Take(Side::B),
    Step::Tick(Side::A),
    Step::Rest,
    Step::Take(Side::B),
    Step::Take(Side::B),
    Step::Take(Side::B),
];

/// What there is after each step.
fn tell_each(alloc: Global, text: &mut String) -> Result<(), AllocError> {
    for count in 1..=REVERSED.len() {
        tell_after(alloc, text, REVERSED.get(..count).unwrap_or_default())?;
    }
    Ok(())
}

fn tell_after(alloc: Global, text: &mut String, steps: &[Step]) -> Result<(), AllocError> {
    match play(alloc, steps)? {
        Some(trace) => put_after(alloc, text, steps, &trace),
        None => Ok(()),
    }
}

/// Behind the last step the packets and the items that were handed up after it.
fn put_after(
    alloc: Global,
    text: &mut String,
    steps: &[Step],
    trace: &ItemTrace,
) -> Result<(), AllocError> {
    text.push_str("after ")?;
    if let Some(step) = steps.last() {
        step.put(text)?;
    }
    put(text, ": ", &trace.bag.as_slice().len())?;
    end_numbers(alloc, text, " packets, handed up ", &trace.b_handed)
}

/// The header of the connection in a packet of the bag, and what follows it.
fn carried(bag: &Bag, number: usize) -> &[u8] {
    match bag.as_slice().get(number) {
        Some((_, bytes)) => bytes.as_slice().get(HEADER_BYTES..).unwrap_or_default(),
        None => &[],
    }
}

fn tell_carried(text: &mut String, bag: &Bag) -> Result<(), AllocError> {
    for packet in &[6, 7, 8, 14] {
        put(text, "packet ", packet)?;
        end(text, " carries ", &carried(bag, *packet))?;
    }
    Ok(())
}

/// Items in reverse with a repeat come through.
fn tell_reversed(alloc: Global, text: &mut String) -> Result<(), AllocError> {
    match play(alloc, &REVERSED)? {
        Some(trace) => put_reversed(alloc, text, trace),
        None => Ok(()),
    }
}

fn put_reversed(alloc: Global, text: &mut String, trace: ItemTrace) -> Result<(), AllocError> {
    put_sent(alloc, text, &trace)?;
    end_numbers(alloc, text, "handed up: ", &into_handed(trace))
}

/// What A sent, and in which packets.
fn put_sent(alloc: Global, text: &mut String, trace: &ItemTrace) -> Result<(), AllocError> {
    end_numbers(alloc, text, "sent: ", &trace.a_sent)?;
    tell_carried(text, &trace.bag)
}

/// What B handed up, put together anew.
fn into_handed(trace: ItemTrace) -> Items {
    Items::new(trace.b_handed.into_vec())
}

/// Nothing comes of nothing, nor of bytes from elsewhere before the connection is open.
const NOTHING: [(&str, &[Step]); 5] = [
    ("no events", &[]),
    ("a delivery of no packet", &[Step::Deliver(99)]),
    (
        "a rest, a tick of B and a take of A",
        &[Step::Rest, Step::Tick(Side::B), Step::Take(Side::A)],
    ),
    (
        "a data packet",
        &[Step::Foreign(Side::B, &FIRST), Step::Take(Side::B)],
    ),
    (
        "an Echo request",
        &[Step::Foreign(Side::B, &ECHO_REQUEST), Step::Take(Side::B)],
    ),
];

fn tell_nothing(alloc: Global, text: &mut String) -> Result<(), AllocError> {
    for (name, steps) in NOTHING {
        tell_play(alloc, text, name, steps)?;
    }
    Ok(())
}

/// How many items there are at both ends, and what became of them.
fn put_both(text: &mut String, a: &Items, b: &Items, what: &str) -> Result<(), AllocError> {
    let (a, b) = (a.as_slice().len(), b.as_slice().len());
    write!(text, "{a} and {b} {what}, ")
}

/// The counts of a play.
fn put_counts(text: &mut String, name: &str, trace: &ItemTrace) -> Result<(), AllocError> {
    text.push_str(name)?;
    text.push_str(": ")?;
    put_both(text, &trace.a_sent, &trace.b_sent, "sent")?;
    put_both(text, &trace.a_handed, &trace.b_handed, "handed up")?;
    writeln!(text, "{} packets", trace.bag.as_slice().len())
}

fn tell_play(
    alloc: Global,
    text: &mut String,
    name: &str,
    steps: &[Step],
) -> Result<(), AllocError> {
    match play(alloc, steps)? {
        Some(trace) => put_counts(text, name, &trace),
        None => Ok(()),
    }
}

const BROADCAST_HOST: Address = Address {
    host: [255; 6],
    ..CALLER
};

/// A setup is good within its bounds.
const SETUPS: [(&str, Setup); 9] = [
    ("the setup is", SETUP),
    (
        "window 1 and backlog 64 are",
        Setup {
            window: 1,
            backlog: 64,
            ..SETUP
        },
    ),
    (
        "window 64 and backlog 1 are",
        Setup {
            window: 64,
            backlog: 1,
            ..SETUP
        },
    ),
    (
        "window 0 and backlog 16 are",
        Setup {
            window: 0,
            backlog: 16,
            ..SETUP
        },
    ),
    (
        "window 4 and backlog 65 are",
        Setup {
            window: 4,
            backlog: 65,
            ..SETUP
        },
    ),
    (
        "ids 0 and 1 are",
        Setup {
            a_id: 0,
            b_id: 1,
            ..SETUP
        },
    ),
    (
        "ids 1 and 0 are",
        Setup {
            a_id: 1,
            b_id: 0,
            ..SETUP
        },
    ),
    (
        "A at the broadcast host is",
        Setup {
            a: BROADCAST_HOST,
            ..SETUP
        },
    ),
    (
        "B at the broadcast host is",
        Setup {
            b: BROADCAST_HOST,
            ..SETUP
        },
    ),
];

fn tell_setups(text: &mut String) -> Result<(), AllocError> {
    for (name, setup) in &SETUPS {
        text.push_str(name)?;
        end(text, " good: ", &setup.is_good())?;
    }
    Ok(())
}

/// The rest is delivered and handed up, and what is missing is sent again.
const CALM: [Step; 12] = [
    Step::Tick(Side::A),
    Step::Rest,
    Step::Take(Side::B),
    Step::Take(Side::B),
    Step::Take(Side::B),
    Step::Take(Side::B),
    Step::Tick(Side::B),
    Step::Rest,
    Step::Take(Side::A),
    Step::Take(Side::A),
    Step::Take(Side::A),
    Step::Take(Side::A),
];

/// 4,000 steps that look random, and then calm ones.
fn random_steps(alloc: Global) -> Result<Vec<Step>, AllocError> {
    let mut steps = Vec::new(alloc);
    push_random(&mut steps)?;
    push_calm(&mut steps)?;
    Ok(steps)
}

fn push_random(steps: &mut Vec<Step>) -> Result<(), AllocError> {
    let mut generator = Generator::new(28_112);
    for number in 0..4_000 {
        steps.push(generator.step(number))?;
    }
    Ok(())
}

fn push_calm(steps: &mut Vec<Step>) -> Result<(), AllocError> {
    for _ in 0..16 {
        steps.extend_from_slice(&CALM)?;
    }
    Ok(())
}

fn are_same(alloc: Global, some: &Items, others: &Items) -> Result<bool, AllocError> {
    let some = numbers(alloc, some)?;
    Ok(some == numbers(alloc, others)?)
}

/// Whether each end handed up what the other sent.
fn put_sameness(alloc: Global, text: &mut String, trace: &ItemTrace) -> Result<(), AllocError> {
    let to_b = are_same(alloc, &trace.b_handed, &trace.a_sent)?;
    put(text, "B handed up what A sent: ", &to_b)?;
    let to_a = are_same(alloc, &trace.a_handed, &trace.b_sent)?;
    end(text, ", A what B sent: ", &to_a)
}

fn put_random(alloc: Global, text: &mut String, trace: ItemTrace) -> Result<(), AllocError> {
    put_handed(alloc, text, &trace)?;
    end(text, "packets: ", &into_bag(trace).as_slice().len())
}

/// How much came of the random steps, and whether it is what was sent.
fn put_handed(alloc: Global, text: &mut String, trace: &ItemTrace) -> Result<(), AllocError> {
    put_counts(text, "4000 steps that look random", trace)?;
    put_sameness(alloc, text, trace)
}

/// The packets, put together anew.
fn into_bag(trace: ItemTrace) -> Bag {
    Bag::new(trace.bag.into_vec())
}

/// A play of the random steps.
fn play_random(alloc: Global) -> Result<Option<ItemTrace>, AllocError> {
    play(alloc, &random_steps(alloc)?)
}

/// Whatever happens, all items come through in the end.
fn tell_random(alloc: Global, text: &mut String) -> Result<(), AllocError> {
    match play_random(alloc)? {
        Some(trace) => put_random(alloc, text, trace),
        None => Ok(()),
    }
}
