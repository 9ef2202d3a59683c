//! A connection of the Sequenced Packet Protocol: one item goes from one end to the other.

use crate::hex_lines::print_hex;
use crate::hosts::{CALLER, SERVER};
use std::alloc::{AllocError, Global};
use std::io;
use xns_spp::{Bytes, Endpoint, Item};

/// Makes both ends of a connection, and sends an item from one to the other.
pub fn send_an_item(rt: &HostRuntime) -> io::Result<()> {
    let alloc = rt.alloc();
    let mut caller = Endpoint::initiator(alloc, CALLER, 0x1234, SERVER, 4, 16)?;
    let mut server = Endpoint::responder(alloc, SERVER, 0x5678, CALLER, 0x1234, 4, 16)?;
    open_and_send(rt, &mut caller, &mut server)
}

/// Opens the connection, sends an item across, and prints each packet as a line of hex.
fn open_and_send(rt: &HostRuntime, caller: &mut Endpoint, server: &mut Endpoint) -> io::Result<()> {
    let alloc = rt.alloc();
    carry(rt, &caller.tick(alloc)?, server, caller)?;
    send_hello(rt, caller)?;
    carry(rt, &caller.flush(alloc)?, server, caller)?;
    print_item(rt, server)
}

/// Hands the item over for sending.
fn send_hello(rt: &HostRuntime, caller: &mut Endpoint) -> io::Result<()> {
    match caller.send(hello(rt.alloc())?) {
        Ok(()) => Ok(()),
        Err((fault, _)) => println!(rt; "not sent: {fault}"),
    }
}

/// Takes an item that came, and prints its size.
fn print_item(rt: &HostRuntime, server: &mut Endpoint) -> io::Result<()> {
    match server.take() {
        Some(item) => println!(rt; "{} bytes came", item.body.as_slice().len()),
        None => Ok(()),
    }
}

/// An item that is a message of its own.
fn hello(alloc: Global) -> Result<Item, AllocError> {
    Ok(Item {
        stream: 0,
        attention: false,
        last: true,
        body: Bytes::new(b"Hello".to_vec(alloc)?),
    })
}

/// The network: each packet comes to one end, and its reply to the other.
fn carry(
    rt: &HostRuntime,
    packets: &Vec<Bytes>,
    to: &mut Endpoint,
    from: &mut Endpoint,
) -> io::Result<()> {
    for packet in packets {
        print_hex(rt, packet.as_slice())?;
        if let Some(reply) = to.receive(rt.alloc(), packet.as_slice())?.reply {
            print_hex(rt, reply.as_slice())?;
            from.receive(rt.alloc(), reply.as_slice())?;
        }
    }
    Ok(())
}
