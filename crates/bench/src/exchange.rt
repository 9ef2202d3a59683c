//! Two ends exchange 65,535 items each way: in order; with every second packet late where the first word is `late`; or with the last seven
//! packets of each round lost where it is `lossy`. The exchange is done as often as the second word says, else once.

use std::alloc::{AllocError, Global};
use std::io;
use test_setting::{caller, item, server};
use xns_spp::{Bytes, Endpoint, MOST_BODY, MOST_PENDING};

/// How many items go out one way before as many go out the other way.
const ROUND: usize = 51;

/// How many rounds make 65,535 items.
const ROUNDS: usize = 1285;

/// The packets from this place of a round on can be lost.
const FIRST_LOST: usize = 44;

/// The body of each item: as many bytes as a packet holds.
const BODY: [u8; MOST_BODY] = [0x5a; MOST_BODY];

/// What the way does to the packets of a round.
#[derive(Clone, Copy)]
pub enum Way {
    /// All packets come in order.
    Ordered,
    /// Every second packet comes after the others.
    Late,
    /// The last seven packets of a round are lost.
    Lossy,
}

/// What becomes of a packet on its way.
#[derive(Clone, Copy, PartialEq, Eq)]
enum Fate {
    InTurn,
    Late,
    Lost,
}

impl Way {
    /// The way of that name, or in order.
    pub fn named(name: &str) -> Way {
        match name {
            "late" => Way::Late,
            "lossy" => Way::Lossy,
            _ => Way::Ordered,
        }
    }

    /// What becomes of the packet in this place of a round.
    fn fate(self, place: usize) -> Fate {
        match self {
            Way::Late if place % 2 == 1 => Fate::Late,
            Way::Lossy if place >= FIRST_LOST => Fate::Lost,
            Way::Ordered | Way::Late | Way::Lossy => Fate::InTurn,
        }
    }
}

/// The counts of a connection.
#[derive(Clone, Copy)]
struct Tally {
    /// Items that were handed up.
    handed: u64,
    /// Packets with items that went out.
    packets: u64,
    /// Packets with items that came late.
    late: u64,
    /// Packets with items that were lost.
    lost: u64,
    /// Packets with items that a tick sent again.
    again: u64,
}

/// Makes so many connections, and prints what was counted in each.
pub fn run(rt: &HostRuntime, way: Way, times: u32) -> io::Result<()> {
    for _ in 0..times {
        print_tally(rt, connection(rt.alloc(), way)?)?;
    }
    Ok(())
}

/// Prints what was counted.
fn print_tally(rt: &HostRuntime, tally: Tally) -> io::Result<()> {
    let Tally {
        handed,
        packets,
        late,
        lost,
        again,
    } = tally;
    println!(rt;
        "handed up {handed} of {packets} packets: {late} late, {lost} lost, {again} sent again"
    )
}

/// Opens a connection and exchanges the items.
fn connection(alloc: Global, way: Way) -> Result<Tally, AllocError> {
    let mut caller = caller(alloc, MOST_PENDING, MOST_PENDING)?;
    let mut server = server(alloc, MOST_PENDING, MOST_PENDING)?;
    exchange_all(alloc, &mut caller, &mut server, way)
}

/// Opens the connection of two new ends and exchanges the items.
fn exchange_all(
    alloc: Global,
    caller: &mut Endpoint,
    server: &mut Endpoint,
    way: Way,
) -> Result<Tally, AllocError> {
    let _ = tick(alloc, caller, server)?;
    let mut tally = Tally {
        handed: 0,
        packets: 0,
        late: 0,
        lost: 0,
        again: 0,
    };
    for _ in 0..ROUNDS {
        exchange(alloc, caller, server, way, &mut tally)?;
        exchange(alloc, server, caller, way, &mut tally)?;
    }
    Ok(tally)
}

/// Sends a round of items from one end to the other, which hands them up. The late packets come after the others. Once all have come,
/// both ends tick.
fn exchange(
    alloc: Global,
    from: &mut Endpoint,
    to: &mut Endpoint,
    way: Way,
    tally: &mut Tally,
) -> Result<(), AllocError> {
    send_round(alloc, from)?;
    let packets = from.flush(alloc)?;
    deliver_in_turn(alloc, &packets, from, to, way, tally)?;
    deliver_fated(alloc, &packets, from, to, way, Fate::Late)?;
    let again = tick(alloc, from, to)?.saturating_add(tick(alloc, to, from)?);
    let sent = again.saturating_add(packets.len() as u64);
    tally.again = tally.again.saturating_add(again);
    tally.packets = tally.packets.saturating_add(sent);
    tally.handed = tally.handed.saturating_add(hand_up(to));
    Ok(())
}

/// Accepts the items of a round.
fn send_round(alloc: Global, from: &mut Endpoint) -> Result<(), AllocError> {
    for _ in 0..ROUND {
        let _ = from.send(item(alloc, &BODY)?);
    }
    Ok(())
}

/// Delivers the packets that come in turn, and counts the others.
fn deliver_in_turn(
    alloc: Global,
    packets: &[Bytes],
    from: &mut Endpoint,
    to: &mut Endpoint,
    way: Way,
    tally: &mut Tally,
) -> Result<(), AllocError> {
    for (place, packet) in packets.iter().enumerate() {
        match way.fate(place) {
            Fate::InTurn => deliver(alloc, packet, from, to)?,
            Fate::Late => tally.late = tally.late.saturating_add(1),
            Fate::Lost => tally.lost = tally.lost.saturating_add(1),
        }
    }
    Ok(())
}

/// Delivers the packets that have this fate.
fn deliver_fated(
    alloc: Global,
    packets: &[Bytes],
    from: &mut Endpoint,
    to: &mut Endpoint,
    way: Way,
    fate: Fate,
) -> Result<(), AllocError> {
    for (place, packet) in packets.iter().enumerate() {
        if way.fate(place) == fate {
            deliver(alloc, packet, from, to)?;
        }
    }
    Ok(())
}

/// Delivers the packets that an end sends once time has passed, and returns how many there were.
fn tick(alloc: Global, from: &mut Endpoint, to: &mut Endpoint) -> Result<u64, AllocError> {
    let packets = from.tick(alloc)?;
    deliver_fated(alloc, &packets, from, to, Way::Ordered, Fate::InTurn)?;
    Ok(packets.len() as u64)
}

/// Gives a packet to the end that it is for, and its reply to the other.
fn deliver(
    alloc: Global,
    packet: &Bytes,
    from: &mut Endpoint,
    to: &mut Endpoint,
) -> Result<(), AllocError> {
    let received = to.receive(alloc, packet.as_slice())?;
    if let Some(reply) = &received.reply {
        from.receive(alloc, reply.as_slice())?;
    }
    Ok(())
}

/// Hands up the items that wait, and returns how many there were.
fn hand_up(end: &mut Endpoint) -> u64 {
    let mut handed = 0u64;
    for _ in 0..ROUND {
        if end.take().is_some() {
            handed = handed.saturating_add(1);
        }
    }
    handed
}
