// A router that gathers the frames of a round, to work the round once it is full.
ghost use Rattle.std.specs.Prelude.{◌≡◌, ◌≤◌, length, IfOk};
ghost use Rattle.command_words.specs.Limits.{most_round_frames, most_workers};
ghost use Rattle.lisp_settings.specs.Lawful.{IsLawful};
ghost use Rattle.playback.specs.Input.{beginning};
ghost use Rattle.router_model.specs.Cut.{is_full};
ghost use Rattle.router_model.specs.Lifting.{AreOctets};
ghost use Rattle.forwarders.specs.Batches.{count_of};
ghost use Rattle.sharing.specs.Gathering.{Gathering as GatheringValue, InRounds, MayPlay, is_due, none_gathered, state_of};

use crate::crew::Crew;
use crate::limits::MOST_ROUND_OCTETS;
use capture_io::Frame;
use forwarders::{Gate, Published, open_hall};
use lisp_settings::Settings;
use octets::{NoMemory, Octets};
use playback::{Machine, Output};
use router_core::Table;
use std::alloc::Global;
use std::sync::Wait;
use std::thread::Threads;

/// A router that is replayed in rounds: its table, the table as it is published to forwarders, and
/// the frames that came since the last round.
pub(crate) struct Gathering<'a> {
    pub settings: &'a Settings,
    pub table: Table,
    pub published: Published,
    /// The frames that make a round, at most 4,096.
    pub size: usize,
    /// The moment of the frame before the round, in nanoseconds; None before the first frame.
    pub previous: Option<u64>,
    pub frames: Vec<Frame>,
    /// The number of octets of the gathered frames.
    pub octets: usize,
}

impl<'a> Machine for Gathering<'a> {
    ghost State = { GatheringValue };

    ghost state = { state_of };

    ghost Does = { InRounds };

    ghost full = { is_due };

    ghost IsReady = { λ progress written g. MayPlay g progress written };

    // A second changes nothing yet, because the seconds of a round are worked with the round.
    fn tick(&mut self, _second: u32, _output: &mut Output) -> Result<(), NoMemory> {
        Ok(())
    }

    fn take(&mut self, frame: Frame, _output: &mut Output) -> Result<bool, NoMemory> {
        fit(frame.octets.as_slice());
        self.octets += frame.octets.len();
        self.frames.push(frame)?;
        Ok(is_full(self.size, self.frames.len(), self.octets))
    }

    // No frame's list is handed back, because a round keeps its frames.
    fn spare(&mut self) -> Option<Octets> {
        None
    }
}

/// A router that begins with its static mappings, published to forwarders. The call may wait.
pub(crate) fn begun<'a, R: Threads + Wait + Sync, G: Gate>(
    crew: &Crew<'_, R, G>,
    alloc: Global,
    settings: &'a Settings,
) -> Result<Gathering<'a>, NoMemory>
    requires workers { (1 ≤ crew.now.workers) × (crew.now.workers ≤ most_workers) }
    requires round { (1 ≤ crew.now.round) × (crew.now.round ≤ most_round_frames) }
    requires lawful { IsLawful settings.now }
    ensures begins { IfOk result (λ g. state_of g ≡ none_gathered crew.now.round settings.now) }
    ensures ready { IfOk result (λ g. MayPlay g beginning 0) }
{
    let table = Table::new(alloc, settings)?;
    match open_hall(crew.rt, alloc, settings, &table, crew.workers) {
        Ok(published) => Ok(Gathering {
            settings,
            table,
            published,
            size: crew.round,
            previous: None,
            frames: Vec::new(alloc),
            octets: 0,
        }),
        Err(refused) => {
            table.closed();
            Err(refused)
        }
    }
}

impl<'a> Gathering<'a> {
    /// Ends the publication and the table, and returns the length of the journal. The call may
    /// wait.
    pub fn closed<R: Wait>(self, rt: &R) -> u64
        ensures { result ≡ count_of self.entry.published.batches }
    {
        let Gathering {
            settings: _,
            table,
            published,
            size: _,
            previous: _,
            frames: _,
            octets: _,
        } = self;
        let entries = published.count();
        published.close(rt);
        table.closed();
        entries
    }
}

// Whether so many frames and octets make a round of that size.
fn is_full(size: usize, frames: usize, octets: usize) -> bool
    ensures { result ≡ is_full size (record { frames = frames; octets = octets }) }
{
    frames >= size || octets > MOST_ROUND_OCTETS
}

// Shows that octets are below 256, which a round demands of its frames.
fn fit(octets: &[u8])
    ensures { AreOctets octets.now }
{
    let _ = octets;
}
