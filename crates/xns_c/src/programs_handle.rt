ghost use Rattle.std.specs.Prelude.{◌≡◌, Option};
ghost use Rattle.std.specs.Coded.{coded_option};
ghost use Rattle.xns_c.specs.Owned.{owned_if};
ghost use Rattle.xns_c.specs.contracts.kept_programs.KeptPrograms.{the_row};
ghost use Rattle.xns_c.specs.declared.kept_programs.KeptPrograms.{KeptPrograms};

use crate::handling::Handle;
use crate::kept_programs::KeptPrograms;
use crate::owner::Owner;
use std::marker::Model;

/// Programs of Courier's notation, or none, as C keeps them: one word. A null pointer is none.
#[repr(C)]
pub struct XnsPrograms {
    pub(crate) at: *mut u8,
    pub ghost kept: { Option KeptPrograms } by { coded_option the_row.coded },
}

impl Model for XnsPrograms {
    ghost also_owns = { λ h. owned_if the_row h.at h.kept };
}

impl Handle for XnsPrograms {
    type Kept = KeptPrograms;

    ghost held = { λ h. h.kept };

    fn exchange(&mut self, owner: Owner<KeptPrograms>) -> Owner<KeptPrograms>
        ensures { (self.new.kept ≡ owner.value) × (result.value ≡ self.old.kept) }
    {
        let Owner { at } = owner;
        let found = self.at;
        self.at = at as *mut u8;
        Owner {
            at: found as *mut KeptPrograms,
        }
    }
}
