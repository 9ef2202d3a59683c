ghost use Rattle.std.specs.Prelude.{◌≡◌};
ghost use Rattle.xns_c.specs.Structs.{address_of_struct};

use xns_idp::Address;

/// Where a packet goes to or comes from.
#[repr(C)]
#[derive(Clone, Copy)]
pub struct XnsAddress {
    /// The network number; 0 is an unknown network.
    pub network: u32,
    /// The host number, its highest byte first; six bytes of 255 are the broadcast host, which is every host.
    pub host: [u8; 6],
    /// The socket number.
    pub socket: u16,
}

impl XnsAddress {
    ghost use Rattle.std.specs.Prelude.{◌≡◌};
    ghost use Rattle.xns_c.specs.Structs.{address_of_struct};

    /// An address of the stack, for C.
    pub fn of(address: &Address) -> XnsAddress
        ensures { address_of_struct result ≡ address.now }
    {
        XnsAddress {
            network: address.network,
            host: address.host,
            socket: address.socket,
        }
    }

    /// An address of C, for the stack.
    pub fn address(&self) -> Address
        ensures { result ≡ address_of_struct self.now }
    {
        Address {
            network: self.network,
            host: self.host,
            socket: self.socket,
        }
    }
}

/// Tells C an address and the connection identifier of the end there.
pub fn tell_end(end: (Address, u16), address: &mut XnsAddress, id: &mut u16)
    ensures { (address_of_struct address.new ≡ end.0) × (id.new ≡ end.1) }
{
    *address = XnsAddress::of(&end.0);
    *id = end.1;
}
