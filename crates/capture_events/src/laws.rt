// Laws of events. Each function only states its law.
ghost use Rattle.std.specs.Prelude.{◌≡◌, List};
ghost use Rattle.capture_io.specs.Frame.{Frame};
ghost use Rattle.capture_events.specs.Events.{arrivals, events};

/// Law: the frames among the events of a capture are its frames, none lost or moved.
pub fn events_keep_the_frames()
    ensures { (frames : List Frame) → arrivals (events frames) ≡ frames }
{}
