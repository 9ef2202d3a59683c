//! The number of the last item of each flow.
ghost use Rattle.std.specs.Prelude.{◌≡◌, ◌++◌, [], ◌∷◌, ℕ, List, Option, option_copied, OnErr, OnOk};
ghost use Rattle.std.specs.Option.{option_to_list};
ghost use Rattle.std.specs.BTreeMap.{IsUnchanged};
ghost use Rattle.xns_dump.specs.Flows.{DataPacket, item_number};
ghost use Rattle.xns_dump.specs.Flows.Numbers.{NumbersStandFor, number_near, with_its_number, numbering};

use crate::flows::flow::Flow;
use crate::flows::numbered::Numbered;
use std::alloc::{AllocError, Global};
use std::collections::BTreeMap;
use xns_spp::nearest;

/// How many items a connection carries each way at most. No item of an input has a larger number, by the limit on its
/// lines.
const MOST_ITEMS: u64 = 1 << 48;

/// The number of the last item of each flow, in an ordered map, for which nobody can choose flows that make it slow.
#[derive(Drop)]
pub(crate) struct FlowNumbers {
    last: BTreeMap<Flow, u64>,
}

impl FlowNumbers {
    /// A map with no flow yet.
    pub(crate) fn new(alloc: Global) -> Self
        ensures { NumbersStandFor result.last [] }
    {
        FlowNumbers {
            last: BTreeMap::new(alloc),
        }
    }

    /// The number of the next item of a flow.
    pub(crate) fn next_number(&self, flow: &Flow, sequence: u16) -> u64
        ensures { result ≡ numbering self.now.last (flow.now, sequence) }
    {
        number_near_last(self.last.get(flow), sequence)
    }

    /// Keeps the number of the next item of a flow. Where memory is refused, nothing has changed.
    pub(crate) fn note(&mut self, flow: Flow, sequence: u16, item: u64) -> Result<(), AllocError>
        ensures after { OnOk result ((earlier : List DataPacket) → NumbersStandFor self.old.last earlier → item
            ≡ item_number earlier (flow, sequence)
            → NumbersStandFor self.new.last (earlier ++ (flow, sequence) ∷ [])) }
        ensures unchanged { OnErr result (IsUnchanged self.old.last self.new.last) }
    {
        // The definition names the field, and the code needs the number alone.
        let _field = sequence;
        match self.last.insert(flow, item) {
            Ok(_) => Ok(()),
            Err(_) => Err(AllocError),
        }
    }

    /// Keeps the number of a data packet's item, if there is one. Where memory is refused, nothing has changed.
    pub(crate) fn note_item(&mut self, item: Option<Numbered>) -> Result<(), AllocError>
        ensures after { OnOk result ((number : DataPacket → ℕ) (packet : Option DataPacket) (earlier : List DataPacket) → item
            ≡ with_its_number number packet → number ≡ item_number earlier
            → NumbersStandFor self.old.last earlier → NumbersStandFor self.new.last (earlier ++ option_to_list packet)) }
        ensures unchanged { OnErr result (IsUnchanged self.old.last self.new.last) }
    {
        match item {
            Some(item) => self.note(item.flow, item.sequence, item.item),
            None => Ok(()),
        }
    }
}

/// The number of an item behind the last one of its flow.
fn number_near_last(last: Option<&u64>, sequence: u16) -> u64
    ensures { result ≡ number_near (option_copied last.entry) sequence }
{
    match last {
        Some(last) if *last <= MOST_ITEMS => nearest(*last, sequence).unwrap_or(u64::from(
            sequence,
        )),
        _ => u64::from(sequence),
    }
}
