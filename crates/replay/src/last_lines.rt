// The last lines of reports, and the statuses that go with them.
ghost use Rattle.std.specs.Prelude.{◌≡◌, ◌++◌, ◌∷◌, [], codes, IfOk, IsErrOf, OnErr, OnOk, option_map};
ghost use Rattle.desk.specs.declared.fault.DeskFault.TheVariants.{Failed};
ghost use Rattle.desk.specs.Causes.{HasCause, StaysSteady};
ghost use Rattle.desk.specs.World.{after_say};
ghost use Rattle.replay.specs.Answer.{closing, status_of};
ghost use Rattle.replay.specs.Front.{SaysPart};
ghost use Rattle.router_log.specs.Numbers.{named};
ghost use Rattle.replay.specs.Lines.{count_line, end_line, fault_line, fault_text, input_text, ng_text, sent_line, settings_line, settings_text};
ghost use Rattle.replay.specs.declared.status.Status.TheVariants.{Usage, Settings as BadSettings, Capture};

use crate::Status;
use capture_io::CaptureFault;
use capture_ng::NgFault;
use desk::{Desk, DeskFault};
use lisp_settings::{Key, SettingsFault};
use octets::{NoMemory, Octets};
use playback::InputFault;
use router_log::push_named;
use std::alloc::Global;

/// Reports that the words are of no form, and returns the status `Usage`.
pub(crate) fn refuse_words<D: Desk>(alloc: Global, desk: &mut D) -> Result<Status, DeskFault>
    ensures status { IfOk result (λ s. s ≡ Usage) }
    ensures told { OnOk result (D.told desk.new
        ≡ option_map (after_say (codes "usage\n")) (D.told desk.old)) }
    ensures part { OnErr result (SaysPart (codes "usage\n") (D.told desk.old) (D.told desk.new)) }
    ensures cause { HasCause (D.faults desk.old) (D.faults desk.new) result }
    ensures steady { StaysSteady (D.steady desk.old) (D.steady desk.new)
        Unit (IsErrOf result Failed) }
{
    desk.say(alloc, b"usage\n")?;
    Ok(Status::Usage)
}

/// Reports the line of the settings' fault, and returns the status `Settings`.
pub(crate) fn refuse_settings<D: Desk>(
    alloc: Global,
    desk: &mut D,
    fault: &SettingsFault,
) -> Result<Status, DeskFault>
    ensures status { IfOk result (λ s. s ≡ BadSettings) }
    ensures told { OnOk result (D.told desk.new
        ≡ option_map (after_say (settings_line fault.now)) (D.told desk.old)) }
    ensures part { OnErr result (SaysPart (settings_line fault.now) (D.told desk.old) (D.told desk.new)) }
    ensures cause { HasCause (D.faults desk.old) (D.faults desk.new) result }
    ensures steady { StaysSteady (D.steady desk.old) (D.steady desk.new)
        Unit (IsErrOf result Failed) }
{
    let line = settings_line(alloc, fault)?;
    desk.say(alloc, line.as_slice())?;
    Ok(Status::Settings)
}

/// Reports the last line: the line of the capture's fault, or `line` where it has none. Returns the
/// status.
pub(crate) fn close<D: Desk>(
    alloc: Global,
    desk: &mut D,
    fault: Option<InputFault>,
    line: &[u8],
) -> Result<Status, DeskFault>
    ensures status { IfOk result (λ s. s ≡ status_of fault) }
    ensures told { OnOk result (D.told desk.new
        ≡ option_map (after_say (closing fault line.now)) (D.told desk.old)) }
    ensures part { OnErr result (SaysPart (closing fault line.now) (D.told desk.old) (D.told desk.new)) }
    ensures cause { HasCause (D.faults desk.old) (D.faults desk.new) result }
    ensures steady { StaysSteady (D.steady desk.old) (D.steady desk.new)
        Unit (IsErrOf result Failed) }
{
    match fault {
        Some(fault) => refuse_capture(alloc, desk, fault),
        None => {
            desk.say(alloc, line)?;
            Ok(Status::Done)
        }
    }
}

/// Reports the line of the capture's fault, and returns the status `Capture`.
pub(crate) fn refuse_capture<D: Desk>(
    alloc: Global,
    desk: &mut D,
    fault: InputFault,
) -> Result<Status, DeskFault>
    ensures status { IfOk result (λ s. s ≡ Capture) }
    ensures told { OnOk result (D.told desk.new
        ≡ option_map (after_say (fault_line fault)) (D.told desk.old)) }
    ensures part { OnErr result (SaysPart (fault_line fault) (D.told desk.old) (D.told desk.new)) }
    ensures cause { HasCause (D.faults desk.old) (D.faults desk.new) result }
    ensures steady { StaysSteady (D.steady desk.old) (D.steady desk.new)
        Unit (IsErrOf result Failed) }
{
    let line = fault_line(alloc, fault)?;
    desk.say(alloc, line.as_slice())?;
    Ok(Status::Capture)
}

/// The last line of a run whose settings are refused.
pub(crate) fn settings_line(alloc: Global, fault: &SettingsFault) -> Result<Octets, NoMemory>
    ensures { IfOk result (λ line. line ≡ settings_line fault.now) }
{
    let mut line = Octets::new(alloc);
    line.append(b"settings ")?;
    push_settings_fault(fault, &mut line)?;
    line.push(b'\n')?;
    Ok(line)
}

fn push_settings_fault(fault: &SettingsFault, out: &mut Octets) -> Result<(), NoMemory>
    ensures { OnOk result (out.new ≡ out.old ++ settings_text fault.now) }
{
    match fault {
        SettingsFault::NotToml => out.append(b"not-toml"),
        SettingsFault::TooLong => out.append(b"too-long"),
        SettingsFault::UnknownKey(key) => push_key(b"unknown-key ", key, out),
        SettingsFault::Missing(key) => push_key(b"missing ", key, out),
        SettingsFault::BadValue(key) => push_key(b"bad-value ", key, out),
        SettingsFault::Duplicate(key) => push_key(b"duplicate ", key, out),
        SettingsFault::TooMany(key) => push_key(b"too-many ", key, out),
        SettingsFault::Memory => Ok(()),
    }
}

fn push_key(word: &[u8], key: &Key, out: &mut Octets) -> Result<(), NoMemory>
    ensures { OnOk result (out.new ≡ out.old ++ (word.now ++ key.now)) }
{
    out.append(word)?;
    out.append(key.as_slice())
}

/// The last line of a replay: the frames that were read, the packets that were written, and the
/// length of the journal.
pub(crate) fn end_line(
    alloc: Global,
    frames: u32,
    written: u64,
    entries: u64,
) -> Result<Octets, NoMemory>
    ensures { IfOk result (λ line. line ≡ end_line frames written entries) }
{
    let mut line = Octets::new(alloc);
    push_named(b"end frames=", u64::from(frames), &mut line)?;
    push_named(b" written=", written, &mut line)?;
    push_named(b" entries=", entries, &mut line)?;
    line.push(b'\n')?;
    Ok(line)
}

/// The last line of a show: the frames that were read.
pub(crate) fn count_line(alloc: Global, frames: u32) -> Result<Octets, NoMemory>
    ensures { IfOk result (λ line. line ≡ count_line frames) }
{
    let mut line = Octets::new(alloc);
    push_named(b"end frames=", u64::from(frames), &mut line)?;
    line.push(b'\n')?;
    Ok(line)
}

/// The last line of a run whose input capture is refused.
pub(crate) fn fault_line(alloc: Global, fault: InputFault) -> Result<Octets, NoMemory>
    ensures { IfOk result (λ line. line ≡ fault_line fault) }
{
    let mut line = Octets::new(alloc);
    line.append(b"capture ")?;
    push_fault(fault, &mut line)?;
    line.push(b'\n')?;
    Ok(line)
}

/// The last line of an audit whose sent capture is refused.
pub(crate) fn sent_line(alloc: Global, fault: InputFault) -> Result<Octets, NoMemory>
    ensures { IfOk result (λ line. line ≡ sent_line fault) }
{
    let mut line = Octets::new(alloc);
    line.append(b"sent ")?;
    push_fault(fault, &mut line)?;
    line.push(b'\n')?;
    Ok(line)
}

fn push_fault(fault: InputFault, out: &mut Octets) -> Result<(), NoMemory>
    ensures { OnOk result (out.new ≡ out.old ++ input_text fault) }
{
    match fault {
        InputFault::Classic(fault) => push_classic(fault, out),
        InputFault::Ng(fault) => push_ng(fault, out),
    }
}

fn push_classic(fault: CaptureFault, out: &mut Octets) -> Result<(), NoMemory>
    ensures { OnOk result (out.new ≡ out.old ++ fault_text fault) }
{
    match fault {
        CaptureFault::BadMagic => out.append(b"bad-magic"),
        CaptureFault::BadVersion => out.append(b"bad-version"),
        CaptureFault::BadLink => out.append(b"bad-link"),
        CaptureFault::CutHeader(size) => push_named(b"cut-header ", size, out),
        CaptureFault::CutRecord(place) => push_named(b"cut-record ", place, out),
        CaptureFault::BadFraction(place) => push_named(b"bad-fraction ", place, out),
        CaptureFault::TooLong(place, size) => push_too_long(place, size, out),
        CaptureFault::SpanTooLong(number) => {
            push_named(b"span-too-long ", u64::from(number), out)
        }
        CaptureFault::TooManyRecords => out.append(b"too-many-records"),
        CaptureFault::Host | CaptureFault::Memory => Ok(()),
    }
}

fn push_ng(fault: NgFault, out: &mut Octets) -> Result<(), NoMemory>
    ensures { OnOk result (out.new ≡ out.old ++ ng_text fault) }
{
    match fault {
        NgFault::TooManyRecords => out.append(b"too-many-records"),
        NgFault::BadMagic => out.append(b"bad-magic"),
        NgFault::CutBlock(place) => push_named(b"cut-block ", place, out),
        NgFault::BadLength(place) => push_named(b"bad-length ", place, out),
        NgFault::TooLong(place, size) => push_too_long(place, size, out),
        NgFault::OldPacket(place) => push_named(b"old-packet ", place, out),
        NgFault::BadVersion(place) => push_named(b"bad-version ", place, out),
        NgFault::BadOption(place) => push_named(b"bad-option ", place, out),
        NgFault::TooManyInterfaces(place) => push_named(b"too-many-interfaces ", place, out),
        NgFault::BadInterface(place) => push_named(b"bad-interface ", place, out),
        NgFault::BadLinkType(place) => push_named(b"bad-link-type ", place, out),
        NgFault::BadMoment(place) => push_named(b"bad-moment ", place, out),
        NgFault::SpanTooLong(number) => push_named(b"span-too-long ", u64::from(number), out),
        NgFault::Host | NgFault::Memory => Ok(()),
    }
}

fn push_too_long(place: u64, size: u32, out: &mut Octets) -> Result<(), NoMemory>
    ensures { OnOk result (out.new
        ≡ out.old ++ (named (codes "too-long ") place ++ named (codes " ") size)) }
{
    push_named(b"too-long ", place, out)?;
    push_named(b" ", u64::from(size), out)
}
