// Control messages that are heard: the entries and packets that they lead to.
ghost use Rattle.std.specs.Prelude.{◌≡◌, ◌<◌, ◌+◌, ◌^◌, [], Some, ℕ, length, IfOk};
ghost use Rattle.lisp_settings.specs.Lawful.{IsLawful};
ghost use Rattle.lisp_settings.specs.declared.settings.Settings.{Settings as SettingsValue};
ghost use Rattle.map_messages.specs.Range.{InRange, InRangeEcm, InRangeReply, InRangeRequest};
ghost use Rattle.router_log.specs.declared.verdict.Reason.{Reason as ReasonValue};
ghost use Rattle.router_log.specs.declared.verdict.Verdict.TheVariants.{Drop};
ghost use Rattle.router_model.specs.Changes.{unchanged};
ghost use Rattle.router_model.specs.Hear.{carried, course_heard, datagram_heard, drops, hear, hear_by, message_heard, payload_heard, probe_replied, reply_heard, requested, route_of};
ghost use Rattle.router_model.specs.Isolation.{of_instance};
ghost use Rattle.router_model.specs.Journal.{Journal};
ghost use Rattle.router_model.specs.Lifting.{AreOctets, Follows, MayGo};
ghost use Rattle.router_model.specs.Limits.{most_heard};
ghost use Rattle.router_model.specs.Parts.{Stands, table, view_in, standing_in};
ghost use Rattle.router_model.specs.Tenants.{AreAlike, NoncesDiffer, heard_instance};
ghost use Rattle.router_core.specs.Site.{IsSite};
ghost use Rattle.router_core.specs.Seen.{asker_seen, course_seen, datagram_seen, route_seen};
ghost use Rattle.router_core.specs.Steps.{AreSent, IsStep, MayStep};
ghost use Rattle.router_core.specs.Table.{change_of, heard_seen};

use crate::answering::Asker;
use crate::changed::only;
use crate::courses::{Course, course_of};
use crate::site::Site;
use crate::{Datagram, Heard, Table};
use capture_io::Frame;
use ip_headers::{Addr, check_udp, same_address, udp_payload};
use lisp_settings::Settings;
use map_messages::{Ecm, MapReply, MapRequest, Message, MessageFault, read_message};
use octets::{Items, NoMemory};
use router_log::{Done, Entry, Reason, Verdict};

/// The route of a message: the address and port it came from, and the own locator it came to.
#[derive(Clone, Copy)]
pub(crate) struct Route {
    pub from: Addr,
    pub dest: Addr,
    pub port: u16,
}

// The route of the message in a datagram.
fn route_of(datagram: &Datagram) -> Route
    ensures { route_seen result ≡ route_of (datagram_seen datagram.now) }
{
    let header = &datagram.packet.header;
    Route {
        from: header.source(),
        dest: header.dest(),
        port: datagram.udp.source,
    }
}

impl Table {
    /// Hears a frame that is a control message, at a moment, and applies the entries that come of
    /// it. Any other frame is for `decide`: here its verdict is a drop, without an entry. Where
    /// memory is refused, the table is as it was.
    pub fn hear(&mut self, settings: &Settings, m: u64, frame: &Frame) -> Result<Heard, NoMemory>
        requires lawful { IsLawful settings.now }
        requires may { MayStep m self.old.parts }
        ensures parts { IfOk result (λ heard. heard_seen self.new.parts heard
            ≡ hear_by table (standing_in settings.now self.old.parts) m frame.now
            (unchanged self.old.parts)) }
        ensures verdict { IfOk result (λ heard. (journal : Journal)
            → Stands settings.now self.old.parts journal → MayGo journal m
            → heard.verdict ≡ (hear settings.now journal m frame.now).verdict) }
        ensures journal { IfOk result (λ heard. (journal : Journal)
            → Stands settings.now self.old.parts journal → MayGo journal m
            → Follows settings.now (change_of self.new.parts heard.entries heard.emits)
            (hear settings.now journal m frame.now).change) }
        ensures isolated { IfOk result (λ heard. (journal : Journal) (i : ℕ)
            → Stands settings.now self.old.parts journal → MayGo journal m
            → NoncesDiffer m journal → heard_instance (standing_in settings.now self.old.parts)
            (view_in self.old.parts m) frame.now ≡ Some i
            → AreAlike (heard_seen self.new.parts heard)
            (hear settings.now (of_instance journal i) m frame.now)) }
        ensures drop { IfOk result (λ heard. (why : ReasonValue) → heard.verdict ≡ Drop why
            → heard_seen self.new.parts heard ≡ drops why (unchanged self.old.parts)) }
        ensures sent { IfOk result (λ heard. AreSent (standing_in settings.now self.new.parts)
            most_heard heard.emits) }
        ensures step { IsStep most_heard m self.old.parts self.new.parts result }
    {
        fit(frame.octets.as_slice());
        self.hear_course(settings, m, &course_of(settings, frame))
    }

    /// Hears a frame of that course, at a moment. Where memory is refused, the table is as it was.
    pub fn hear_course(
        &mut self,
        settings: &Settings,
        m: u64,
        course: &Course<'_>,
    ) -> Result<Heard, NoMemory>
        requires lawful { IsLawful settings.now }
        requires may { MayStep m self.old.parts }
        ensures parts { IfOk result (λ heard. heard_seen self.new.parts heard
            ≡ course_heard table (standing_in settings.now self.old.parts) m (course_seen course.now)
            (unchanged self.old.parts)) }
        ensures sent { IfOk result (λ heard. AreSent (standing_in settings.now self.new.parts)
            most_heard heard.emits) }
        ensures step { IsStep most_heard m self.old.parts self.new.parts result }
    {
        let site = self.site(settings);
        match course {
            Course::Control(datagram) => self.hear_datagram(&site, m, datagram),
            _ => Ok(self.dropped(Reason::NotTunnel)),
        }
    }

    // Hears the control message of a datagram, whose UDP checksum must be there and right.
    #[tactic(auto, unfolding(router_model::specs::Hear::datagram_heard))]
    fn hear_datagram(
        &mut self,
        site: &Site<'_>,
        m: u64,
        datagram: &Datagram,
    ) -> Result<Heard, NoMemory>
        requires lawful { IsSite site.now }
        requires may { MayStep m self.old.parts }
        ensures parts { IfOk result (λ heard. heard_seen self.new.parts heard
            ≡ datagram_heard table site.now m (datagram_seen datagram.now)
            (unchanged self.old.parts)) }
        ensures sent { IfOk result (λ heard. AreSent site.now most_heard heard.emits) }
        ensures step { IsStep most_heard m self.old.parts self.new.parts result }
    {
        let (packet, udp) = (&datagram.packet, &datagram.udp);
        match check_udp(packet, udp, false) {
            Ok(()) => {
                let place = packet.base + udp.at + 8;
                let payload = udp_payload(packet, udp);
                self.hear_payload(site, m, route_of(datagram), place, payload)
            }
            Err(refused) => Ok(self.dropped(Reason::Refused(refused))),
        }
    }

    // Hears the octets of a control message, which stand in the frame from the place `base` on.
    #[tactic(auto, unfolding(router_model::specs::Hear::payload_heard))]
    fn hear_payload(
        &mut self,
        site: &Site<'_>,
        m: u64,
        route: Route,
        base: u32,
        payload: &[u8],
    ) -> Result<Heard, NoMemory>
        requires lawful { IsSite site.now }
        requires may { MayStep m self.old.parts }
        requires place { base + length payload.now < 2 ^ 32 }
        ensures parts { IfOk result (λ heard. heard_seen self.new.parts heard
            ≡ payload_heard table site.now m (route_seen route) base payload.now
            (unchanged self.old.parts)) }
        ensures sent { IfOk result (λ heard. AreSent site.now most_heard heard.emits) }
        ensures step { IsStep most_heard m self.old.parts self.new.parts result }
    {
        match read_message(self.alloc, payload, base) {
            Ok((message, _)) => self.hear_message(site, m, route, &message),
            Err(MessageFault::Refused(refused)) => Ok(self.dropped(Reason::Refused(refused))),
            Err(MessageFault::Memory) => Err(NoMemory),
        }
    }

    // Hears a message that came by that route.
    fn hear_message(
        &mut self,
        site: &Site<'_>,
        m: u64,
        route: Route,
        message: &Message,
    ) -> Result<Heard, NoMemory>
        requires lawful { IsSite site.now }
        requires may { MayStep m self.old.parts }
        requires range { InRange message.now }
        ensures parts { IfOk result (λ heard. heard_seen self.new.parts heard
            ≡ message_heard table site.now m (route_seen route) message.now
            (unchanged self.old.parts)) }
        ensures sent { IfOk result (λ heard. AreSent site.now most_heard heard.emits) }
        ensures step { IsStep most_heard m self.old.parts self.new.parts result }
    {
        match message {
            Message::Reply(reply) => self.hear_reply(site, m, route.from, reply),
            Message::Request(request) => {
                let Route { dest, port, .. } = route;
                let probe = request.probe;
                self.hear_request(site, m, Asker { dest, port, probe }, request)
            }
            Message::Control(ecm) => self.hear_carried(site, m, route.dest, ecm),
        }
    }

    // Hears an encapsulated message: only a Map-Request counts, with the inner port, and as no
    // probe.
    fn hear_carried(
        &mut self,
        site: &Site<'_>,
        m: u64,
        dest: Addr,
        ecm: &Ecm,
    ) -> Result<Heard, NoMemory>
        requires lawful { IsSite site.now }
        requires may { MayStep m self.old.parts }
        requires range { InRangeEcm ecm.now }
        ensures parts { IfOk result (λ heard. heard_seen self.new.parts heard
            ≡ carried table site.now m dest ecm.now.source_port ecm.now.request
            (unchanged self.old.parts)) }
        ensures sent { IfOk result (λ heard. AreSent site.now most_heard heard.emits) }
        ensures step { IsStep most_heard m self.old.parts self.new.parts result }
    {
        let Some(request) = &ecm.request else {
            return Ok(self.dropped(Reason::Unexpected));
        };
        let port = ecm.source_port;
        let probe = false;
        self.hear_request(site, m, Asker { dest, port, probe }, request)
    }

    // Hears a Map-Request: an SMR, or a question for mappings of the site.
    #[tactic(auto, unfolding(router_model::specs::Hear::requested))]
    fn hear_request(
        &mut self,
        site: &Site<'_>,
        m: u64,
        asker: Asker,
        request: &MapRequest,
    ) -> Result<Heard, NoMemory>
        requires lawful { IsSite site.now }
        requires may { MayStep m self.old.parts }
        requires range { InRangeRequest request.now }
        ensures parts { IfOk result (λ heard. heard_seen self.new.parts heard
            ≡ requested table site.now m (asker_seen asker) request.now
            (unchanged self.old.parts)) }
        ensures sent { IfOk result (λ heard. AreSent site.now most_heard heard.emits) }
        ensures step { IsStep most_heard m self.old.parts self.new.parts result }
    {
        if request.smr && !asker.probe {
            return self.renew(site, m, request);
        }
        self.answer_request(site, asker, request)
    }

    // Hears a Map-Reply from an address.
    #[tactic(auto, unfolding(router_model::specs::Hear::reply_heard))]
    fn hear_reply(
        &mut self,
        site: &Site<'_>,
        m: u64,
        from: Addr,
        reply: &MapReply,
    ) -> Result<Heard, NoMemory>
        requires lawful { IsSite site.now }
        requires may { MayStep m self.old.parts }
        requires range { InRangeReply reply.now }
        ensures parts { IfOk result (λ heard. heard_seen self.new.parts heard
            ≡ reply_heard table site.now m from reply.now (unchanged self.old.parts)) }
        ensures quiet { IfOk result (λ heard. heard.emits ≡ []) }
        ensures step { IsStep most_heard m self.old.parts self.new.parts result }
    {
        if reply.probe {
            return self.hear_probe_reply(m, from, reply);
        }
        match self.queue.find(m, reply.nonce).copied() {
            Some(request) => self.learn_reply(site, m, &request, reply),
            None => Ok(self.dropped(Reason::Unsolicited)),
        }
    }

    // Hears an answer to a probe, which counts only from the locator that was probed.
    fn hear_probe_reply(&mut self, m: u64, from: Addr, reply: &MapReply) -> Result<Heard, NoMemory>
        requires may { MayStep m self.old.parts }
        ensures parts { IfOk result (λ heard. (settings : SettingsValue)
            → heard_seen self.new.parts heard ≡ probe_replied table settings m from reply.now
            ((view_in self.old.parts m).probe_open reply.now.nonce) (unchanged self.old.parts)) }
        ensures quiet { IfOk result (λ heard. heard.emits ≡ []) }
        ensures step { IsStep 1 m self.old.parts self.new.parts result }
    {
        let nonce = reply.nonce;
        let Some(rloc) = self.locators.probe_open(m, nonce) else {
            return Ok(self.dropped(Reason::Unsolicited));
        };
        if !same_address(&rloc, &from) {
            return Ok(self.dropped(Reason::Foreign));
        }
        let entries = only(self.alloc, Entry::ProbeAnswered { moment: m, nonce })?;
        self.answer_probe(m, nonce);
        Ok(Heard {
            verdict: Verdict::Control(Done::ProbeReply),
            entries,
            emits: Items::new(self.alloc),
        })
    }

    // A message that is dropped for that reason, without entries and without emits.
    pub(crate) fn dropped(&self, reason: Reason) -> Heard
        ensures { result ≡ record { verdict = Drop reason; entries = []; emits = [] } }
    {
        Heard {
            verdict: Verdict::Drop(reason),
            entries: Items::new(self.alloc),
            emits: Items::new(self.alloc),
        }
    }
}

// Octets are below 256, which bounds the numbers in the records of a message.
fn fit(octets: &[u8])
    ensures { AreOctets octets.now }
{
    let _ = octets;
}
