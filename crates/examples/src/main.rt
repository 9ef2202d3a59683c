//! Callers of the libraries, one a module, as the pages of `docs/` show them: proved, run, and what they print is compared.
#![tactic(auto)]

mod asking;
mod calls;
mod capture;
mod client;
mod connection;
mod counting_lines;
mod dumping;
mod echo_server;
mod hex_lines;
mod hosts;
mod losing;
mod network;
mod packet;
mod scripting;
mod service;
mod simulating;
mod two_hosts;
mod values;
mod words;

fn main(rt: HostRuntime) -> Result<(), anyhow::Error> {
    packet::shorten(&rt)?;
    echo_server::answer(&rt)?;
    asking::ask(&rt)?;
    connection::send_an_item(&rt)?;
    values::show(&rt, rt.alloc())?;
    calls::converse(&rt)?;
    words::call(&rt)?;
    two_hosts::talk(&rt)?;
    losing::talk(&rt)?;
    network::play(&rt)?;
    counting_lines::count(&rt)?;
    scripting::read(&rt)?;
    simulating::play(&rt)?;
    dumping::show(&rt)?;
    capture::show(&rt)
}
