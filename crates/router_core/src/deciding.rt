// The router's decision on a frame that is no control message.
ghost use Rattle.std.specs.Prelude.{◌≡◌, ◌<◌, ◌^◌, [], None, Some, ℕ, IfOk};
ghost use Rattle.lisp_settings.specs.Lawful.{IsLawful};
ghost use Rattle.router_model.specs.Decide.{decide, decide_by, decide_course};
ghost use Rattle.router_model.specs.Isolation.{frame_instance, of_instance};
ghost use Rattle.router_model.specs.Journal.{Journal, at};
ghost use Rattle.router_model.specs.Lifting.{AreSound};
ghost use Rattle.router_model.specs.Parts.{Stands, view_in, standing_in};
ghost use Rattle.router_model.specs.Plain.{FitsRecord};
ghost use Rattle.router_core.specs.Seen.{course_seen, IfLeaving};

use crate::Table;
use crate::arrival::tunnelled;
use crate::courses::{Course, course_of};
use crate::departure::routed;
use crate::view::View;
use capture_io::Frame;
use lisp_settings::Settings;
use octets::NoMemory;
use router_log::{Decision, Notices, Reason, Verdict};

impl Table {
    /// The decision on a frame that is no control message, at a moment, as the journal decides it.
    /// A moment earlier than the last entry's counts as the last entry's. The decision has at most
    /// five notices. A control message is for `hear`: here its verdict is a drop.
    #[tactic(auto, unfolding(router_model::specs::Decide::decide_by))]
    pub fn decide(&self, settings: &Settings, m: u64, frame: &Frame) -> Result<Decision, NoMemory>
        requires { IsLawful settings.now }
        ensures parts { IfOk result (λ decision. decision
            ≡ decide_by (standing_in settings.now self.now.parts) (view_in self.now.parts m) frame.now) }
        ensures journal { IfOk result (λ decision. (journal : Journal)
            → Stands settings.now self.now.parts journal
            → decision ≡ decide settings.now journal m frame.now) }
        ensures isolated { IfOk result (λ decision. (journal : Journal) (i : ℕ)
            → Stands settings.now self.now.parts journal
            → frame_instance settings.now frame.now ≡ Some i
            → decision ≡ decide settings.now (of_instance journal i) (at journal m) frame.now) }
        ensures size { IfOk result (λ decision. FitsRecord decision.verdict) }
        ensures notices { IfOk result (λ decision. AreSound decision.notices) }
    {
        self.decide_course(settings, m, &course_of(settings, frame))
    }

    /// The decision on a frame of that course, at a moment; a control message is dropped.
    pub fn decide_course(
        &self,
        settings: &Settings,
        m: u64,
        course: &Course<'_>,
    ) -> Result<Decision, NoMemory>
        requires lawful { IsLawful settings.now }
        requires instance { IfLeaving course.now (λ iid. iid < 2 ^ 24) }
        ensures parts { IfOk result (λ decision. decision
            ≡ decide_course (standing_in settings.now self.now.parts) (view_in self.now.parts m)
            (course_seen course.now)) }
        ensures size { IfOk result (λ decision. FitsRecord decision.verdict) }
        ensures notices { IfOk result (λ decision. AreSound decision.notices) }
    {
        let site = self.site(settings);
        let view = View::of(self, &site, m);
        match course {
            Course::Settled(settled) => Ok(self.alone(settled.verdict())),
            Course::Data(datagram) => tunnelled(&view, datagram),
            Course::Control(_) => Ok(self.alone(Verdict::Drop(Reason::NotTunnel))),
            Course::Leaving { iid, packet } => routed(&view, *iid, packet),
        }
    }

    /// A decision with that verdict and without notices.
    pub(crate) fn alone(&self, verdict: Verdict) -> Decision
        ensures { result ≡ record { verdict = verdict; notices = [] } }
    {
        Decision {
            verdict,
            notices: Notices::new(self.alloc),
        }
    }
}
