ghost use Rattle.std.specs.Prelude.{◌≡◌, Option};
ghost use Rattle.std.specs.Coded.{coded_option};
ghost use Rattle.xns_c.specs.Owned.{owned_if};
ghost use Rattle.xns_c.specs.contracts.kept_host.KeptHost.{the_row};
ghost use Rattle.xns_c.specs.declared.kept_host.KeptHost.{KeptHost};

use crate::handling::Handle;
use crate::kept_host::KeptHost;
use crate::owner::Owner;
use std::marker::Model;

/// A host, or none, as C keeps it: one word. A null pointer is none.
#[repr(C)]
pub struct XnsHost {
    pub(crate) at: *mut u8,
    pub ghost kept: { Option KeptHost } by { coded_option the_row.coded },
}

impl Model for XnsHost {
    ghost also_owns = { λ h. owned_if the_row h.at h.kept };
}

impl Handle for XnsHost {
    type Kept = KeptHost;

    ghost held = { λ h. h.kept };

    fn exchange(&mut self, owner: Owner<KeptHost>) -> Owner<KeptHost>
        ensures { (self.new.kept ≡ owner.value) × (result.value ≡ self.old.kept) }
    {
        let Owner { at } = owner;
        let found = self.at;
        self.at = at as *mut u8;
        Owner {
            at: found as *mut KeptHost,
        }
    }
}
