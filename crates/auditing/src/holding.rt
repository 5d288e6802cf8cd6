// Packets, compared one by one with the records of a capture as they come.
ghost use Rattle.std.specs.Prelude.{◌≡◌, ◌≢◌, ◌≤◌, ◌<◌, ◌^◌, ℕ, List, [], ◌∷◌, None, Err, IfSome, IsErrOf, IsSomeAnd, OnOk, length};
ghost use Rattle.std.specs.Result.{MatchResult};
ghost use Rattle.octets.specs.Causes.{Rose};
ghost use Rattle.desk.specs.Causes.{StaysSteady};
ghost use Rattle.desk.specs.World.{to_read, shown, IsGiven, World};
ghost use Rattle.capture_events.specs.Events.{Packet, records_of};
ghost use Rattle.capture_io.specs.declared.fault.CaptureFault.{CaptureFault};
ghost use Rattle.capture_io.specs.declared.fault.CaptureFault.TheVariants.{Host};
ghost use Rattle.capture_io.specs.Reading as reading;
ghost use Rattle.capture_io.specs.Run.{Run};
ghost use Rattle.audit.specs.Compared.{compared};
ghost use Rattle.audit.specs.declared.outcome.Outcome.TheVariants.{Same};
ghost use Rattle.auditing.specs.Auditing.{octets_of};
ghost use Rattle.auditing.specs.Coming.{IsFaultOf};
ghost use Rattle.auditing.specs.Holding.{HoldsMore, IsHeld, IsOpen};

use crate::reading::{read_next, read_to_end};
use crate::records::{HEADER_OCTETS, split_record};
use audit::{Auditor, Outcome, packets_compare_one_by_one};
use capture_io::{CaptureFault, CaptureReader, Desk};
use playback::Output;
use std::alloc::Global;

/// The capture of sent packets, read as far as due packets came, and the outcome of their
/// comparison so far.
#[derive(Drop)]
pub(crate) struct Holding {
    pub sent: CaptureReader,
    pub auditor: Auditor,
}

impl Holding {
    /// A comparison before its first packet. Takes no memory.
    pub fn new(sent: CaptureReader) -> Holding
        requires { sent ≡ reading.beginning sent.id sent.format }
        ensures sent { result.sent ≡ sent }
        ensures auditor { result.auditor ≡ Same 0 }
        ensures open { IsOpen result }
    {
        Holding {
            sent,
            auditor: Auditor::new(),
        }
    }

    /// Compares the packets in an output with the next records, and empties the output, lines too.
    /// Records of 2^32 octets or more in all are answered as `Memory`, because a record has its
    /// length in 32 bits.
    pub fn expect_output<D: Desk>(
        &mut self,
        alloc: Global,
        desk: &mut D,
        output: &mut Output,
    ) -> Result<(), CaptureFault>
        requires open { IsOpen self.old }
        ensures holds { (packets : List Packet) → output.old.records ≡ records_of packets →
            HoldsMore (octets_of packets) self.old (D.told desk.old) result self.new (D.told desk.new) }
        ensures open { OnOk result (IsOpen self.new) }
        ensures id { self.new.sent.id ≡ self.old.sent.id }
        ensures records { OnOk result (output.new.records ≡ []) }
        ensures written { output.new.written ≡ output.old.written }
        ensures shown { shown (D.told desk.new) ≡ shown (D.told desk.old) }
        ensures given { D.given desk.new ≡ D.given desk.old }
        ensures later { D.faults desk.old ≤ D.faults desk.new }
        ensures host { IsErrOf result Host → Rose (D.faults desk.old) (D.faults desk.new) }
        ensures same { result ≢ Err Host → D.faults desk.new ≡ D.faults desk.old }
        ensures steady { StaysSteady (D.steady desk.old) (D.steady desk.new)
            (IsGiven self.old.sent.id to_read (D.given desk.old)) (IsErrOf result Host) }
    {
        if output.records.len() > u32::MAX as usize {
            return Err(CaptureFault::Memory);
        }
        self.expect_all(alloc, desk, output.records.as_slice())?;
        output.lines.clear();
        output.records.clear();
        Ok(())
    }

    // Compares the packets in records, in order.
    fn expect_all<D: Desk>(
        &mut self,
        alloc: Global,
        desk: &mut D,
        records: &[u8],
    ) -> Result<(), CaptureFault>
        requires open { IsOpen self.old }
        requires short { length records.now < 2 ^ 32 }
        ensures holds { (packets : List Packet) → records.now ≡ records_of packets →
            HoldsMore (octets_of packets) self.old (D.told desk.old) result self.new (D.told desk.new) }
        ensures open { OnOk result (IsOpen self.new) }
        ensures id { self.new.sent.id ≡ self.old.sent.id }
        ensures shown { shown (D.told desk.new) ≡ shown (D.told desk.old) }
        ensures given { D.given desk.new ≡ D.given desk.old }
        ensures later { D.faults desk.old ≤ D.faults desk.new }
        ensures host { IsErrOf result Host → Rose (D.faults desk.old) (D.faults desk.new) }
        ensures same { result ≢ Err Host → D.faults desk.new ≡ D.faults desk.old }
        ensures steady { StaysSteady (D.steady desk.old) (D.steady desk.new)
            (IsGiven self.old.sent.id to_read (D.given desk.old)) (IsErrOf result Host) }
    {
        let mut rest = records;
        while rest.len() >= HEADER_OCTETS {
            let (packet, others) = split_record(rest);
            self.expect(alloc, desk, packet)?;
            rest = others;
        }
        Ok(())
    }

    // Compares a packet with the next record of the capture.
    fn expect<D: Desk>(
        &mut self,
        alloc: Global,
        desk: &mut D,
        packet: &[u8],
    ) -> Result<(), CaptureFault>
        requires open { IsOpen self.old }
        ensures holds { HoldsMore (packet.now ∷ [])
            self.old (D.told desk.old) result self.new (D.told desk.new) }
        ensures open { OnOk result (IsOpen self.new) }
        ensures id { self.new.sent.id ≡ self.old.sent.id }
        ensures shown { shown (D.told desk.new) ≡ shown (D.told desk.old) }
        ensures given { D.given desk.new ≡ D.given desk.old }
        ensures later { D.faults desk.old ≤ D.faults desk.new }
        ensures host { IsErrOf result Host → Rose (D.faults desk.old) (D.faults desk.new) }
        ensures same { result ≢ Err Host → D.faults desk.new ≡ D.faults desk.old }
        ensures steady { StaysSteady (D.steady desk.old) (D.steady desk.new)
            (IsGiven self.old.sent.id to_read (D.given desk.old)) (IsErrOf result Host) }
    {
        let found = read_next(alloc, desk, &mut self.sent)?;
        self.auditor.expect(packet, found.as_ref());
        packets_compare_one_by_one();
        Ok(())
    }

    /// Reads the rest of the capture, and returns how all packets compare with the whole of it.
    pub fn finish<D: Desk>(self, alloc: Global, desk: &mut D) -> Result<Outcome, CaptureFault>
        requires open { IsOpen self }
        ensures compares { (packets : List (List ℕ)) (run : Run CaptureFault) (base : World) →
            IsSomeAnd (D.told desk.old) (IsHeld packets run base self) →
            MatchResult result
            (λ outcome. (run.fault ≡ None) × (outcome ≡ compared packets run.frames))
            (IsFaultOf run) }
        ensures shown { shown (D.told desk.new) ≡ shown (D.told desk.old) }
        ensures given { D.given desk.new ≡ D.given desk.old }
        ensures later { D.faults desk.old ≤ D.faults desk.new }
        ensures host { IsErrOf result Host → Rose (D.faults desk.old) (D.faults desk.new) }
        ensures same { result ≢ Err Host → D.faults desk.new ≡ D.faults desk.old }
        ensures steady { StaysSteady (D.steady desk.old) (D.steady desk.new)
            (IsGiven self.sent.id to_read (D.given desk.old)) (IsErrOf result Host) }
    {
        let Holding { mut sent, auditor } = self;
        let more = read_next(alloc, desk, &mut sent)?.is_some();
        read_to_end(alloc, desk, sent)?;
        packets_compare_one_by_one();
        Ok(auditor.finish(more))
    }
}
