// The seconds between two moments, one after another.
ghost use Rattle.std.specs.Prelude.{◌≡◌, ◌<◌, ◌*◌, ◌^◌, ℕ, map, unwrap_or};
ghost use Rattle.std.specs.Iterator.{YieldsFirst, item_count};
ghost use Rattle.capture_events.specs.Events.{second_of, ticks, Tick};
ghost use Rattle.capture_events.specs.Seconds.{AreBetween};

use std::marker::Model;

/// The nanoseconds of a second.
const SECOND: u64 = 1_000_000_000;

/// An iterator over seconds in a row; contracts see those that it hasn't returned. Takes no memory.
#[derive(Drop)]
pub struct Seconds {
    next: u64,
    end: u64,
}

impl Model for Seconds {
    ghost use Rattle.std.specs.Prelude.{◌≤◌, ◌-◌, ◌^◌, ℕ, List};
    ghost use Rattle.std.specs.List.{range_with_len};

    ghost Value = { List ℕ };

    ghost view = { λ s. range_with_len s.next (s.end - s.next) };

    ghost invariant = { λ s. s.end ≤ 2 ^ 32 };
}

/// The seconds that begin after the moment `from`, up to the moment `to` and with it; none without
/// a `from`. Moments are in nanoseconds.
pub fn seconds_between(from: Option<u64>, to: u64) -> Seconds
    requires moment { to < 2 ^ 32 * 1000000000 }
    ensures ticks { map Tick result ≡ ticks from to }
    ensures between { (least : ℕ) → AreBetween (unwrap_or from least) to result }
{
    let end = second_of(to) + 1;
    let next = match from {
        Some(from) => second_of(from) + 1,
        None => end,
    };
    Seconds { next, end }
}

impl Iterator for Seconds {
    type Item = u32;

    ghost next_gives = { YieldsFirst (λ rest. rest) };

    ghost remaining = { item_count (λ rest. rest) };

    fn next(&mut self) -> Option<u32> {
        if self.next >= self.end {
            return None;
        }
        let second = self.next;
        self.next += 1;
        Some(second as u32)
    }
}

// The second in which a moment lies.
fn second_of(moment: u64) -> u64
    ensures { result ≡ second_of moment }
{
    moment / SECOND
}
