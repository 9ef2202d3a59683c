//! The acknowledgements of a flow that are kept.
ghost use Rattle.std.specs.Prelude.{◌≡◌, [], ◌∷◌, ◌++◌, IfOk, OnOk, Some};
ghost use Rattle.xns_calls.specs.Acknowledged.{effective, last_ahead, nearer, waiting, with_ahead};

use crate::ahead::Ahead;
use std::alloc::{AllocError, Global};
use std::marker::Model;
use xns_spp::MOST_PENDING;

/// The acknowledgements that were captured ahead of the items of a flow, in memory that is taken with the first of them: most flows
/// never keep one. Contracts see them as a list.
#[derive(Drop)]
pub struct Aheads {
    kept: Option<Box<Vec<Ahead>>>,
}

impl Model for Aheads {
    ghost use Rattle.std.specs.Prelude.{List, [], option_map};
    ghost use Rattle.std.specs.Option.{unwrap_or};
    ghost use Rattle.xns_calls.specs.declared.ahead.Ahead.{Ahead as AheadModel};

    ghost Value = { List AheadModel };

    ghost view = { λ a. unwrap_or (option_map (λ b. b.value.items) a.kept) [] };
}

/// Each waits for one packet less.
fn bring_nearer(kept: &mut [Ahead])
    ensures { kept.new ≡ nearer kept.old }
{
    for ahead in kept.iter_mut() {
        ahead.left = ahead.left.saturating_sub(1);
    }
}

/// Takes the first number, where it waits for no packet more.
fn take_effective(kept: &mut Vec<Ahead>) -> Option<u64>
    ensures number { result ≡ effective kept.old.items }
    ensures rest { kept.new.items ≡ waiting kept.old.items }
{
    match kept.first() {
        Some(ahead) if ahead.left == 0 => Some(kept.remove(0).number),
        _ => None,
    }
}

/// One acknowledgement, in memory of its own. The only error is want of memory.
fn first_kept(alloc: Global, ahead: Ahead) -> Result<Box<Vec<Ahead>>, AllocError>
    ensures { IfOk result (λ b. b.value.items ≡ ahead ∷ []) }
{
    let mut kept = Vec::new(alloc);
    push(&mut kept, ahead)?;
    match Box::new(alloc, kept) {
        Ok(kept) => Ok(kept),
        Err(_) => Err(AllocError),
    }
}

/// Puts one behind the others. The only error is want of memory.
fn push(kept: &mut Vec<Ahead>, ahead: Ahead) -> Result<(), AllocError>
    ensures { OnOk result (kept.new.items ≡ kept.old.items ++ ahead ∷ []) }
{
    match kept.push(ahead) {
        Ok(()) => Ok(()),
        Err(_) => Err(AllocError),
    }
}

impl Aheads {
    /// No acknowledgement.
    pub fn new() -> Aheads
        ensures { result ≡ [] }
    {
        Aheads { kept: None }
    }

    /// The greatest number that is kept, or 0 where none is.
    pub fn last_kept_number(&self) -> u64
        ensures { result ≡ last_ahead self.now }
    {
        match &self.kept {
            None => 0,
            Some(kept) => match kept.as_ref().last() {
                None => 0,
                Some(ahead) => ahead.number,
            },
        }
    }

    /// Counts a packet of the connection. The answer is the number that takes effect with it, which is kept no longer.
    #[inline(always)]
    pub fn count_packet(&mut self) -> Option<u64>
        ensures number { result ≡ effective (nearer self.old) }
        ensures rest { self.new ≡ waiting (nearer self.old) }
    {
        match &mut self.kept {
            None => None,
            Some(kept) => {
                bring_nearer(kept.as_mut());
                take_effective(kept.as_mut())
            }
        }
    }

    /// Keeps a number, for 64 packets. The only error is want of memory.
    pub fn keep(&mut self, alloc: Global, number: u64) -> Result<(), AllocError>
        ensures { OnOk result (self.new ≡ with_ahead (Some number) self.old) }
    {
        let ahead = Ahead {
            left: MOST_PENDING as u8,
            number,
        };
        match &mut self.kept {
            None => {
                self.kept = Some(first_kept(alloc, ahead)?);
                Ok(())
            }
            Some(kept) => push(kept.as_mut(), ahead),
        }
    }
}
