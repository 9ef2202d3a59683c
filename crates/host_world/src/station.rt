//! Where a connection begins: one host's part of it.

use xns_connection::Terms;
use xns_idp::Address;

/// One host's part of a connection.
#[derive(Clone, Copy)]
pub struct Station {
    /// The address of the host's end.
    pub address: Address,
    /// The identifier that the host has given the connection: from 1.
    pub id: u16,
    /// What the host makes the connection with: window, backlog and waits.
    pub terms: Terms,
}

impl Station {
    ghost use Rattle.std.specs.Prelude.{◌<◌};
    ghost use Rattle.host_world.specs.Station.{IsStation};

    /// The numbers of the station are within their types' bounds, which a proof may need. Nothing is done.
    pub fn known(&self)
        requires { 0 < self.now.id }
        ensures { IsStation self.now }
    {
        self.address.known();
        let _id = self.id;
    }
}
