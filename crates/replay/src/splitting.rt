// A capture whose large packets are split as it is read (RFC 9300, section 7.1).
ghost use Rattle.std.specs.List.{All};
ghost use Rattle.std.specs.Prelude.{◌≡◌, ◌≤◌, ◌<◌, ◌+◌, ◌^◌, None, length, IfOk, IfSome, OnOk};
ghost use Rattle.capture_io.specs.Run.{before};
ghost use Rattle.lisp_settings.specs.Lawful.{IsLawful};
ghost use Rattle.playback.specs.Input.{InputRun};
ghost use Rattle.replay.specs.Splitting.{splitting_run, under, IsPartOf};

use capture_io::Frame;
use desk::{Desk, DeskFault};
use lisp_settings::Settings;
use octets::{NoMemory, Octets};
use playback::{FrameReader, Next};
use split_v4::split_frame;
use std::alloc::Global;

/// A reader over another reader, which returns each frame whose packet is too large for a tunnel as
/// two halves. The frames that it returns are numbered from 1.
#[derive(Drop)]
pub(crate) struct Splitting<'a, R: FrameReader> {
    reader: R,
    settings: &'a Settings,
    // The second half of the frame that was read last, until it is returned.
    half: Option<Frame>,
    // The number of frames that were returned.
    given: u32,
}

impl<'a, R: FrameReader> Splitting<'a, R> {
    /// A splitting reader that has returned no frame yet. Takes no memory.
    pub(crate) fn new(settings: &'a Settings, reader: R) -> Splitting<'a, R>
        ensures reader { result.reader ≡ reader }
        ensures settings { result.settings.now ≡ settings.now }
        ensures half { result.half ≡ None }
        ensures given { result.given ≡ 0 }
    {
        Splitting {
            reader,
            settings,
            half: None,
            given: 0,
        }
    }

    // Gives a frame the next number.
    fn numbered(&mut self, frame: Frame) -> Frame
        requires { self.old.given + 1 < 2 ^ 32 }
        ensures frame { result ≡ under (self.old.given + 1) frame }
        ensures given { self.new.given ≡ self.old.given + 1 }
        ensures reader { self.new.reader ≡ self.old.reader }
        ensures settings { self.new.settings.now ≡ self.old.settings.now }
        ensures half { self.new.half ≡ self.old.half }
    {
        self.given += 1;
        Frame {
            number: self.given,
            moment: frame.moment,
            link: frame.link,
            octets: frame.octets,
        }
    }

    // Returns a frame that was read, or its first half, under the next number; the second half is
    // kept.
    fn split(&mut self, alloc: Global, frame: Frame) -> Result<Frame, NoMemory>
        requires lawful { IsLawful self.old.settings.now }
        requires none { self.old.half ≡ None }
        requires room { self.old.given + 1 < 2 ^ 32 }
        requires octets { All (λ octet. octet < 256) frame.octets }
        ensures run { IfOk result (λ part. (rest : InputRun) →
            splitting_run self.old.settings.now (self.old.given + 1) None (before frame rest)
            ≡ before part (splitting_run self.old.settings.now (self.old.given + 1 + 1) self.new.half rest)) }
        ensures number { IfOk result (λ part. part.number ≡ self.old.given + 1) }
        ensures part { IfOk result (IsPartOf frame) }
        ensures half { OnOk result (IfSome self.new.half (IsPartOf frame)) }
        ensures given { OnOk result (self.new.given ≡ self.old.given + 1) }
        ensures reader { self.new.reader ≡ self.old.reader }
        ensures settings { self.new.settings.now ≡ self.old.settings.now }
    {
        match split_frame(alloc, self.settings, &frame)? {
            Some((first, second)) => {
                self.half = Some(second);
                Ok(self.numbered(first))
            }
            None => Ok(self.numbered(frame)),
        }
    }
}

impl<'a, R: FrameReader> FrameReader for Splitting<'a, R> {
    ghost use Rattle.std.specs.Prelude.{◌≤◌, ◌+◌, ◌*◌};
    ghost use Rattle.lisp_settings.specs.Lawful.{IsLawful};
    ghost use Rattle.playback.specs.Limits.{most_records};
    ghost use Rattle.replay.specs.Splitting.{splitting_run, IsSplit};

    ghost id = { λ r. R.id r.reader };

    ghost run = { λ r left. splitting_run r.settings.now (r.given + 1) r.half (R.run r.reader left) };

    ghost progress = { λ r. record { frames = r.given; moment = (R.progress r.reader).moment } };

    ghost most = { 2 * R.most };

    ghost IsOpen = { λ r. R.IsOpen r.reader × ((R.most ≤ most_records)
        × (IsLawful r.settings.now × IsSplit R.most (R.progress r.reader) r.given r.half)) };

    fn next_frame<D: Desk>(&mut self, alloc: Global, desk: &mut D) -> Result<Next, DeskFault> {
        if let Some(half) = self.half.take() {
            return Ok(Next::Frame(self.numbered(half)));
        }
        match self.reader.next_frame(alloc, desk)? {
            Next::Frame(frame) => Ok(Next::Frame(self.split(alloc, frame)?)),
            Next::End => Ok(Next::End),
            Next::Fault(fault) => Ok(Next::Fault(fault)),
        }
    }

    fn take_back(&mut self, octets: Octets) {
        self.reader.take_back(octets);
    }
}
