//! Both flows of a connection, as one of them is read.
ghost use Rattle.std.specs.Prelude.{◌≡◌, OnOk};
ghost use Rattle.xns_calls.specs.Exchange.{Continues, Scene, scene_of, turned};
ghost use Rattle.xns_calls.specs.Read.{in_turn};
ghost use Rattle.xns_calls.specs.declared.heading.Heading.{Heading};

use crate::heading::Heading;
use crate::scratch::Scratch;
use crate::side::Side;
use std::alloc::AllocError;
use std::mem::swap;
use xns_lines::Page;

/// Both flows of a connection, as they are seen from one of them, and what their lines are printed with.
pub struct BothFlows<'a> {
    /// The memory that the messages take turns in.
    pub scratch: &'a mut Scratch,
    /// Where lines are printed.
    pub page: &'a mut Page,
    /// What a line of the flow begins with.
    pub heading: Heading<'a>,
    /// The flow.
    pub own: &'a mut Side,
    /// The flow behind it.
    pub other: &'a mut Side,
}

impl Drop for BothFlows<'_> {
    /// Lets go of both flows, which stay as they are.
    fn drop(self)
        ensures scratch { self.exit.0.now ≡ self.entry.scratch.now }
        ensures page { self.exit.1.0.now ≡ self.entry.page.now }
        ensures own { self.exit.1.1.1.0.now ≡ self.entry.own.now }
        ensures other { self.exit.1.1.1.1.0.now ≡ self.entry.other.now }
    {
        let BothFlows {
            scratch: _,
            page: _,
            heading: _,
            own: _,
            other: _,
        } = self;
    }
}

impl BothFlows<'_> {
    /// From here on both are seen from the other one.
    #[inline(always)]
    pub fn turn(&mut self)
        ensures { self.new ≡ turned self.old }
    {
        self.heading.is_behind = !self.heading.is_behind;
        swap(&mut self.own, &mut self.other);
    }

    /// Has something done to the flow, or to the other one, from which both are seen meanwhile.
    pub fn in_turn<F: Fn(&mut BothFlows<'_>) -> Result<(), AllocError>>(
        &mut self,
        is_other: bool,
        does: F,
    ) -> Result<(), AllocError>
        ghost reads: { Heading → Scene → Scene }
        requires callable { F.IsAlwaysCallable does }
        requires reads { (old : _) (done : _) (new : _) → F.post does old done new
            → Continues old.now new.now × OnOk done (scene_of new.now ≡ reads old.now.heading (scene_of old.now)) }
        ensures kept { Continues self.old self.new }
        ensures scene { OnOk result (scene_of self.new ≡ in_turn reads self.old.heading (Some is_other) (scene_of self.old)) }
    {
        if !is_other {
            return does(self);
        }
        self.turn();
        let done = does(self);
        self.turn();
        done
    }
}
