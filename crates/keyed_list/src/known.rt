// The keys and moments of what is kept of locators: probes, echoes and solicitations.
use crate::{Key, Keyed, Marks};
use router_log::{EchoStart, EchoWish, Probe, Solicitation};

impl Keyed for Probe {
    ghost use Rattle.keyed_list.specs.Known.{probe_marks};

    ghost marks_of = { probe_marks };

    fn marks(&self) -> Marks {
        Marks {
            moment: self.moment,
            key: Key::locator(self.rloc),
            other: Some(Key::nonce(self.nonce)),
        }
    }
}

impl Keyed for EchoStart {
    ghost use Rattle.keyed_list.specs.Known.{start_marks};

    ghost marks_of = { start_marks };

    fn marks(&self) -> Marks {
        Marks {
            moment: self.moment,
            key: Key::locator(self.rloc),
            other: None,
        }
    }
}

impl Keyed for EchoWish {
    ghost use Rattle.keyed_list.specs.Known.{wish_marks};

    ghost marks_of = { wish_marks };

    fn marks(&self) -> Marks {
        Marks {
            moment: self.moment,
            key: Key::locator(self.rloc),
            other: None,
        }
    }
}

impl Keyed for Solicitation {
    ghost use Rattle.keyed_list.specs.Known.{solicit_marks};

    ghost marks_of = { solicit_marks };

    fn marks(&self) -> Marks {
        Marks {
            moment: self.moment,
            key: Key::told(self.rloc, &self.eid),
            other: None,
        }
    }
}
