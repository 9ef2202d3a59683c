//! Two hosts and a clock that the program plays: one calls, the other answers. The program carries their packets.

use crate::hosts::{CALLER, LISTED, SERVER};
use courier_sessions::Answer;
use xns_host::{Call, Event, Host, HostFault, Settings};

/// Makes two hosts, and lets them meet.
pub fn talk(rt: &HostRuntime) -> Result<(), anyhow::Error> {
    let alloc = rt.alloc();
    let usual = Settings::default();
    let mut hosts = Vec::new(alloc);
    hosts.push(Host::new(alloc, SERVER.network, SERVER.host, usual, [1; 32])?)?;
    hosts.push(Host::new(alloc, CALLER.network, CALLER.host, usual, [2; 32])?)?;
    if let [service, client] = hosts.as_mut_slice() {
        meet(rt, client, service)?;
    }
    Ok(())
}

/// Makes a call, and prints its answer.
fn meet(rt: &HostRuntime, client: &mut Host, service: &mut Host) -> Result<(), anyhow::Error> {
    service.serve(SERVER.socket, &[LISTED])?;
    let number = client.connect(0, 0, CALLER.socket, SERVER)?;
    let call = Call {
        program: 7,
        version: 2,
        procedure: 1,
        words: &[1, 2, 3],
    };
    client.call(0, number, &call)?;
    let mut now = 0;
    for _ in 0..40 {
        carry(now, client, service)?;
        answer(rt, now, service)?;
        carry(now, service, client)?;
        hear(rt, now, client)?;
        match earlier(client.wake(), service.wake()) {
            Some(wake) => now = now.max(wake),
            None => break,
        }
    }
    println!(rt; "at rest after {now} ms")?;
    Ok(())
}

/// The network: the packets of one host come to the other.
fn carry(now: u64, from: &mut Host, to: &mut Host) -> Result<(), HostFault> {
    for _ in 0..40 {
        let Some(out) = from.next_packet(now)? else {
            break;
        };
        to.receive(now, out.via, out.packet.as_slice());
    }
    Ok(())
}

/// Answers each call by its own words.
fn answer(rt: &HostRuntime, now: u64, service: &mut Host) -> Result<(), anyhow::Error> {
    let Some(event) = service.next_event() else {
        return Ok(());
    };
    match event {
        Event::Call {
            number,
            message,
            ..
        } => {
            let words = message.words(rt.alloc())?;
            service.answer(now, number, Answer::Return, words.as_slice())?;
        }
        Event::Opened { .. } | Event::Answer { .. } => {}
        Event::Closed { why, .. } => println!(rt; "the service: closed, {why:?}")?,
    }
    Ok(())
}

/// Prints the answer, and closes the connection.
fn hear(rt: &HostRuntime, now: u64, client: &mut Host) -> Result<(), anyhow::Error> {
    let Some(event) = client.next_event() else {
        return Ok(());
    };
    match event {
        Event::Opened { .. } | Event::Call { .. } => {}
        Event::Answer {
            number,
            message,
            ..
        } => {
            println!(rt; "answered by {} words", message.word_count())?;
            client.close(now, number)?;
        }
        Event::Closed { why, .. } => println!(rt; "the client: closed, {why:?}")?,
    }
    Ok(())
}

/// The earlier of two times, where there is one.
fn earlier(one: Option<u64>, other: Option<u64>) -> Option<u64> {
    match (one, other) {
        (Some(one), Some(other)) => Some(one.min(other)),
        (one, other) => one.or(other),
    }
}
