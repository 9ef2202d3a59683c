ghost use Rattle.std.specs.Prelude.{◌≡◌, Option};
ghost use Rattle.std.specs.Coded.{coded_option};
ghost use Rattle.xns_c.specs.KeptEndpoint.{KeptEndpoint};
ghost use Rattle.xns_c.specs.Owned.{owned_if};
ghost use Rattle.xns_c.specs.contracts.connection.Connection.{the_row};

use crate::connection::Connection;
use crate::handling::Handle;
use crate::owner::Owner;
use std::marker::Model;

/// An endpoint, or none, as C keeps it: one word. A null pointer is none.
#[repr(C)]
pub struct XnsEndpoint {
    pub(crate) at: *mut u8,
    pub ghost line: { Option KeptEndpoint } by { coded_option the_row.coded },
}

impl Model for XnsEndpoint {
    ghost also_owns = { λ h. owned_if the_row h.at h.line };
}

impl Handle for XnsEndpoint {
    type Kept = Connection;

    ghost held = { λ h. h.line };

    fn exchange(&mut self, owner: Owner<Connection>) -> Owner<Connection>
        ensures { (self.new.line ≡ owner.value) × (result.value ≡ self.old.line) }
    {
        let Owner { at } = owner;
        let found = self.at;
        self.at = at as *mut u8;
        Owner {
            at: found as *mut Connection,
        }
    }
}
