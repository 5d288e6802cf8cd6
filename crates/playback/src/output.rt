// Lines and records of packets: gathered, and handed on to the desk in pieces.
ghost use Rattle.std.specs.Prelude.{◌≡◌, ◌<◌, ◌≤◌, ◌+◌, ◌*◌, ◌-◌, ◌^◌, ◌++◌, [], false, length, option_map, IsErrOf, OnErr, OnOk};
ghost use Rattle.desk.specs.declared.fault.DeskFault.TheVariants.{Failed};
ghost use Rattle.desk.specs.Causes.{HasCause, StaysSteady};
ghost use Rattle.desk.specs.World.{after_say, after_write};
ghost use Rattle.capture_io.specs.Output.{packet_record};
ghost use Rattle.playback.specs.Front.{Breaks, Hands};
ghost use Rattle.playback.specs.Limits.{most_frame_octets};
ghost use Rattle.playback.specs.Playing.{after_output, handed_on, is_full, MayWrite};

use crate::limits::PIECE_OCTETS;
use capture_io::write_packet;
use desk::{Desk, DeskFault, FileId};
use octets::{NoMemory, Octets};
use std::alloc::Global;

/// The output of a play: lines and records of packets that are gathered to go out, and the number
/// of packets so far.
#[derive(Drop)]
pub struct Output {
    pub lines: Octets,
    pub records: Octets,
    pub written: u64,
}

impl Output {
    /// An output without lines and records. Takes no memory.
    pub fn new(alloc: Global) -> Output
        ensures lines { result.lines ≡ [] }
        ensures records { result.records ≡ [] }
        ensures written { result.written ≡ 0 }
    {
        Output {
            lines: Octets::new(alloc),
            records: Octets::new(alloc),
            written: 0,
        }
    }

    /// Gathers the record of a packet at its moment, in nanoseconds. Where memory is refused, the
    /// gathered octets are unspecified.
    pub fn push_packet(&mut self, moment: u64, packet: &[u8]) -> Result<(), NoMemory>
        requires moment { moment < 2 ^ 32 * 1000000000 }
        requires size { length packet.now ≤ most_frame_octets }
        requires room { self.old.written < 2 ^ 64 - 1 }
        ensures lines { OnOk result (self.new.lines ≡ self.old.lines) }
        ensures records { OnOk result (self.new.records
            ≡ self.old.records ++ packet_record moment packet.now) }
        ensures written { OnOk result (self.new.written ≡ self.old.written + 1) }
    {
        write_packet(moment, packet, &mut self.records)?;
        self.written += 1;
        Ok(())
    }

    // Whether lines or records are enough for a piece.
    fn is_full(&self) -> bool
        ensures { result ≡ is_full self.now }
    {
        self.lines.len() >= PIECE_OCTETS || self.records.len() >= PIECE_OCTETS
    }
}

/// Hands on all lines and records to the desk, if they are enough for a piece. Less than a piece is
/// left gathered.
pub(crate) fn hand_on_full<D: Desk>(
    alloc: Global,
    desk: &mut D,
    file: Option<FileId>,
    output: &mut Output,
) -> Result<(), DeskFault>
    ensures hands { OnOk result (Hands (option_map (λ id. id.number) file)
        output.old (D.told desk.old) output.new (D.told desk.new)) }
    ensures breaks { OnErr result (Breaks (option_map (λ id. id.number) file)
        output.old (D.told desk.old) (D.told desk.new)) }
    ensures piece { OnOk result (is_full output.new ≡ false) }
    ensures written { output.new.written ≡ output.old.written }
    ensures cause { HasCause (D.faults desk.old) (D.faults desk.new) result }
    ensures given { D.given desk.new ≡ D.given desk.old }
    ensures steady { StaysSteady (D.steady desk.old) (D.steady desk.new)
        (MayWrite (option_map (λ id. id.number) file) (D.given desk.old)) (IsErrOf result Failed) }
{
    if output.is_full() {
        hand_on(alloc, desk, file, output)?;
    }
    Ok(())
}

/// Appends all gathered lines to the report, then all gathered records to the file, if there is
/// one.
pub(crate) fn hand_on<D: Desk>(
    alloc: Global,
    desk: &mut D,
    file: Option<FileId>,
    output: &mut Output,
) -> Result<(), DeskFault>
    ensures told { OnOk result (D.told desk.new
        ≡ handed_on (option_map (λ id. id.number) file) output.old (D.told desk.old)) }
    ensures breaks { OnErr result (Breaks (option_map (λ id. id.number) file)
        output.old (D.told desk.old) (D.told desk.new)) }
    ensures lines { OnOk result (output.new.lines ≡ []) }
    ensures records { OnOk result (output.new.records ≡ []) }
    ensures written { output.new.written ≡ output.old.written }
    ensures cause { HasCause (D.faults desk.old) (D.faults desk.new) result }
    ensures given { D.given desk.new ≡ D.given desk.old }
    ensures steady { StaysSteady (D.steady desk.old) (D.steady desk.new)
        (MayWrite (option_map (λ id. id.number) file) (D.given desk.old)) (IsErrOf result Failed) }
{
    desk.say(alloc, output.lines.as_slice())?;
    if let Some(id) = file {
        desk.write_file(alloc, id, output.records.as_slice())?;
    }
    output.lines.clear();
    output.records.clear();
    Ok(())
}
