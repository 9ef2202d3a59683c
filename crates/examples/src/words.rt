//! A call by its words, over two endpoints.

use crate::client::Client;
use crate::hosts::LISTED;
use crate::service::Service;
use courier_sessions::FeedRefusal;
use std::alloc::Global;

/// Makes a call, and prints how it is answered.
pub fn call(rt: &HostRuntime) -> Result<(), anyhow::Error> {
    let alloc = rt.alloc();
    let mut client = Client::new(alloc)?;
    let mut service = Service::new(alloc, vec![in alloc; LISTED]?)?;
    client.ask(alloc, &[1, 2, 3])?;
    carry(alloc, &mut client, &mut service)?;
    carry(alloc, &mut client, &mut service)?;
    match client.caller.take_outcome() {
        Some(answer) => println!(rt; "answered by {} words", answer.word_count())?,
        None => println!(rt; "not answered")?,
    }
    Ok(())
}

/// The network: the packets of the client come to the service, and those of the service to the client.
fn carry(alloc: Global, client: &mut Client, service: &mut Service) -> Result<(), FeedRefusal> {
    for packet in client.packets(alloc)? {
        if let Some(reply) = service.receive(alloc, packet.as_slice())? {
            client.receive(alloc, reply.as_slice())?;
        }
        for answer in service.packets(alloc)? {
            client.receive(alloc, answer.as_slice())?;
        }
    }
    Ok(())
}
