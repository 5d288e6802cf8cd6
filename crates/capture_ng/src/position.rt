// Where a reader stands between two blocks.
ghost use Rattle.std.specs.Prelude.{◌≡◌, ◌<◌};
ghost use Rattle.capture_ng.specs.Frames.{passed};
ghost use Rattle.capture_ng.specs.Limits.{most_blocks};
ghost use Rattle.capture_ng.specs.Position.{begin};

use crate::head::Head;
use crate::interface::Interface;
use capture_io::Order;
use octets::Items;
use std::alloc::Global;
use std::marker::Model;

/// Where a reader stands between two blocks.
#[derive(Debug, Drop)]
pub struct Position {
    /// How many octets of the file were read.
    pub place: u64,
    /// How many blocks were read.
    pub blocks: u32,
    /// The byte order of the section; None before the first section.
    pub order: Option<Order>,
    /// The interfaces of the section so far.
    pub interfaces: Items<Interface>,
    /// How many frames were read.
    pub count: u32,
    /// The greatest moment of a frame so far, in nanoseconds; None before the first frame.
    pub greatest: Option<u64>,
}

impl Model for Position {
    ghost use Rattle.std.specs.Prelude.{◌≤◌, ◌<◌, ◌*◌, ◌^◌, length, unwrap_or};
    ghost use Rattle.std.specs.List.{All};
    ghost use Rattle.capture_io.specs.Limits.{most_records};
    ghost use Rattle.capture_ng.specs.Limits.{end_of_moments, most_blocks, most_interfaces};
    ghost use Rattle.capture_ng.specs.Position.{Position};

    ghost Value = { Position };

    ghost view = { λ p. record {
      place = p.place;
      blocks = p.blocks;
      order = p.order;
      interfaces = p.interfaces;
      count = p.count;
      greatest = p.greatest;
    } };

    ghost invariant = { λ p. (p.blocks ≤ most_blocks) × ((p.place ≤ 2 ^ 32 * p.blocks)
        × ((p.count ≤ most_records) × ((unwrap_or p.greatest 0 < end_of_moments)
        × ((length p.interfaces ≤ most_interfaces)
        × All (λ interface. 0 < interface.clock.units) p.interfaces)))) };
}

impl Position {
    /// The position at the start of a file. Takes no memory.
    pub fn begin(alloc: Global) -> Position
        ensures { result ≡ begin }
    {
        Position {
            place: 0,
            blocks: 0,
            order: None,
            interfaces: Items::new(alloc),
            count: 0,
            greatest: None,
        }
    }

    /// Moves the position behind a block.
    pub fn pass(&mut self, head: Head)
        requires { self.old.blocks < most_blocks }
        ensures { self.new ≡ passed self.old head }
    {
        self.place += u64::from(head.length);
        self.blocks += 1;
    }
}
