//! Many Courier conversations behind one address, with time.
#![tactic(auto)]

mod event;
mod guest;
mod host;
mod host_fault;
mod identifiers;
pub mod laws;
mod numbers;
mod outgoing;
mod peer;
mod quote;
mod refusing;
mod register;
mod request;
mod services;
mod setting;
mod settings;
mod slots;
mod strays;

pub use event::Event;
pub use host::Host;
pub use host_fault::HostFault;
pub use identifiers::Identifiers;
pub use outgoing::Outgoing;
pub use peer::Peer;
pub use register::Register;
pub use services::Services;
pub use setting::Setting;
pub use settings::Settings;
pub use strays::Strays;
pub use xns_connection::{Act, Call, Connection, Due, Pace, Refusal, Terms, Why};
