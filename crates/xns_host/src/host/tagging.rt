//! A number of the program's for each connection.

ghost use Rattle.std.specs.Prelude.{◌≡◌, false, Some, None, Ok, Err, slice_get};
ghost use Rattle.xns_host.specs.Hosting.{has_guest};
ghost use Rattle.xns_host.specs.Turn.{Tags};
ghost use Rattle.xns_host.specs.declared.guest.Guest.{Guest};
ghost use Rattle.xns_host.specs.declared.host_fault.HostFault.TheVariants.{NoConnection};

use crate::host::Host;
use crate::host_fault::HostFault;
use crate::slots::note;

impl Host {
    /// Gives the connection with this number a tag: a number of the program's own, which its events have from now on. It is 0 until then.
    /// Nothing of it goes out. An `Err`, which changes nothing, is [`HostFault::NoConnection`].
    #[tactic(auto, using(crate::proofs::Noting::put_back))]
    pub fn set_tag(&mut self, number: usize, tag: u64) -> Result<(), HostFault>
        ensures none { has_guest (slice_get self.old.guests.items number) ≡ false → result ≡ Err (NoConnection number) }
        ensures some { (g : Guest) → slice_get self.old.guests.items number ≡ Some (Some g) → result ≡ Ok tt }
        ensures tags { Tags number tag result self.old self.new }
    {
        if number >= self.guests.len() {
            return Err(HostFault::NoConnection { number });
        }
        let Some(guest) = &mut self.guests[number] else {
            return Err(HostFault::NoConnection { number });
        };
        guest.set_tag(tag);
        note(self.guests.as_slice(), &mut self.agenda, number);
        Ok(())
    }

    /// The tag of the connection with this number. `None`: there is no such connection.
    pub fn tag(&self, number: usize) -> Option<u64>
        ensures some { (g : Guest) → slice_get self.now.guests.items number ≡ Some (Some g) → result ≡ Some g.tag }
        ensures none { has_guest (slice_get self.now.guests.items number) ≡ false → result ≡ None }
    {
        match self.guests.get(number) {
            Some(Some(guest)) => Some(guest.tag),
            _ => None,
        }
    }
}
