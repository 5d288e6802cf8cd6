// Machines, which handle the events of a capture.
ghost use Rattle.std.specs.Prelude.{◌≡◌, ◌<◌, ◌≤◌, ◌*◌, ◌^◌, ℕ, Bool, false, length, IfOk, OnOk};
ghost use Rattle.capture_events.specs.Events.{Arrival, Happens, Outcome, Step, Tick};
ghost use Rattle.playback.specs.Input.{behind};
ghost use Rattle.playback.specs.Limits.{most_arrival_octets, most_frames};
ghost use Rattle.playback.specs.Machines.{MayTake, MayTick, StaysReady};
ghost use Rattle.playback.specs.Playing.{GathersOne};
ghost use Rattle.playback.specs.declared.progress.Progress.{Progress};

use crate::Output;
use capture_io::Frame;
use octets::{NoMemory, Octets};

/// A machine, which handles the events of a capture one after another and gathers lines and packets
/// for them. A machine may also gather events, and leave their work to its caller once it is full.
/// Its outcomes need not be determined.
pub trait Machine {
    ghost State: { Type 0 };

    ghost state: { Self → State };

    /// The possible outcomes of a step in a state, each with the state after it.
    ghost Does: { State → Step → Outcome State → Type 0 };

    /// Whether the machine's caller must do the gathered work before the next event.
    ghost full: { State → Bool };

    /// The condition under which the machine may be called, by the progress and the number of
    /// packets written. A call that succeeds leaves it true.
    ghost IsReady: { Progress → ℕ → Self → Type 0 };

    /// Begins a second, and gathers its lines and packets. Where memory is refused, a part of them
    /// may be gathered, and the machine mustn't be called again.
    fn tick(&mut self, second: u32, output: &mut Output) -> Result<(), NoMemory>
        requires ready { MayTick IsReady second output.old.written self.old }
        requires not_full { full (state self.old) ≡ false }
        ensures ready { OnOk result
            (StaysReady IsReady second output.old.written self.old output.new.written self.new) }
        ensures not_full { OnOk result (full (state self.new) ≡ false) }
        ensures gathers { OnOk result (GathersOne (Does (state self.old) (Happens (Tick second)))
            output.old output.new (state self.new)) };

    /// Takes a frame, and gathers its lines and packets. Returns whether the machine is full. Where
    /// memory is refused, a part of them may be gathered, and the machine mustn't be called again.
    fn take(&mut self, frame: Frame, output: &mut Output) -> Result<bool, NoMemory>
        requires ready { MayTake IsReady frame output.old.written self.old }
        requires not_full { full (state self.old) ≡ false }
        requires most { frame.number ≤ most_frames }
        requires moment { frame.moment < 2 ^ 32 * 1000000000 }
        requires size { length frame.octets ≤ most_arrival_octets }
        ensures ready { OnOk result (IsReady (behind frame) output.new.written self.new) }
        ensures full { IfOk result (λ is. is ≡ full (state self.new)) }
        ensures gathers { OnOk result (GathersOne (Does (state self.old) (Happens (Arrival frame)))
            output.old output.new (state self.new)) };

    /// The list of the frame that the machine took last, for reuse, if the machine no longer needs
    /// it.
    fn spare(&mut self) -> Option<Octets>
        ensures ready { (progress : Progress) (written : ℕ) →
            IsReady progress written self.old → IsReady progress written self.new }
        ensures state { state self.new ≡ state self.old };
}
