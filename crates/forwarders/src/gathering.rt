// The items that the writer's side of a round gathers, until the data packets are decided.
ghost use Rattle.std.specs.Prelude.{◌≡◌, []};

use crate::round_done::{Line, Packet};
use octets::Items;
use router_log::Entries;
use std::alloc::Global;
use std::collections::VecDeque;

/// An item of a round, in the order of lines and packets. A data packet keeps its place until it is
/// decided.
#[derive(Drop)]
pub(crate) enum Gathered {
    /// A packet that a second or a control message sends.
    Packet(Packet),
    /// The line of a control message.
    Message(Line),
    /// A data packet that isn't decided yet: its frame's number, and its moment in nanoseconds.
    Left { number: u32, moment: u64 },
}

/// All that is gathered of a round: the items, the batches that have entries, and the places of the
/// data packets among the frames.
#[derive(Drop)]
pub(crate) struct Written {
    pub items: VecDeque<Gathered>,
    pub batches: Items<Entries>,
    pub places: Items<usize>,
}

impl Written {
    /// A round of which no item is gathered yet. Takes no memory.
    pub(crate) fn new(alloc: Global) -> Written
        ensures items { result.items.items ≡ [] }
        ensures batches { result.batches ≡ [] }
        ensures places { result.places ≡ [] }
    {
        Written {
            items: VecDeque::new(alloc),
            batches: Items::new(alloc),
            places: Items::new(alloc),
        }
    }
}
