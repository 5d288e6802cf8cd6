// The own site as it stands: its locators, its prefixes, and its settings.
ghost use Rattle.std.specs.Prelude.{◌≡◌, ◌<◌, ◌≤◌, ◌-◌, ◌^◌, length, None, Some, IfErr, IfOk, IfSome, All, is_some, map};
ghost use Rattle.std.specs.List.Sorted.{IsStrictlySortedBy};
ghost use Rattle.std.specs.Ordering.{nat_cmp};
ghost use Rattle.octets.specs.Rules.{first_failing};
ghost use Rattle.ip_headers.specs.Addr.{width};
ghost use Rattle.ip_headers.specs.Ip.{source_of};
ghost use Rattle.lisp_settings.specs.Home.{home_of};
ghost use Rattle.lisp_settings.specs.Lawful.{IsLawfulDatabase};
ghost use Rattle.lisp_settings.specs.Nonces.{nonce_of};
ghost use Rattle.router_model.specs.Decide.{home_version, site_cases};
ghost use Rattle.router_model.specs.Limits.{most_locators, most_version};
ghost use Rattle.router_model.specs.Mappings.{bit};
ghost use Rattle.router_model.specs.Plain.{packet_of};
ghost use Rattle.router_model.specs.Site.{instance_of, is_own, ours, own_bits, reaches_resolver};
ghost use Rattle.router_model.specs.Standing.{standing_by, stood, with_ups};
ghost use Rattle.router_model.specs.Tick.{is_told};
ghost use Rattle.router_core.specs.Site.{IsSite};

use crate::leaving::leaving_from;
use crate::stepping::{stood, stood_version};
use ip_headers::{Addr, IpHeader};
use lisp_settings::{Attachment, Database, OwnLocator, Settings, home, is_own, nonce_at};
use mapping_records::Record;
use router_log::Verdict;
use router_model::Own;
use std::marker::Model;

/// The own site as it stands, in the form of its settings.
#[derive(Drop)]
pub(crate) struct Site<'s> {
    settings: &'s Settings,
    own: Own,
}

impl<'s> Model for Site<'s> {
    ghost use Rattle.lisp_settings.specs.declared.settings.Settings.{Settings as SettingsValue};
    ghost use Rattle.router_model.specs.Standing.{standing_by};

    ghost Value = { SettingsValue };

    ghost view = { λ site. standing_by site.settings.now site.own };
}

impl<'s> Site<'s> {
    /// The site of these settings, where `own` has which own locators are up and how many changes
    /// were made.
    pub(crate) fn of(settings: &'s Settings, own: Own) -> Site<'s>
        ensures { result ≡ standing_by settings.now own }
    {
        Site { settings, own }
    }

    /// Whether an own locator, up or down, has that address.
    pub(crate) fn is_own(&self, address: Addr) -> bool
        ensures { result ≡ is_own self.now.locators address }
    {
        is_own(self.settings.locators.as_slice(), address)
    }

    /// The first own locator that is up and of the family of an address, or None.
    pub(crate) fn ours(&self, to: Addr) -> Option<Addr>
        ensures first { result ≡ ours self.now.locators to }
        ensures family { IfSome result (λ own. width own ≡ width to) }
    {
        first_up(self.settings.locators.as_slice(), self.own.ups, to)
    }

    /// Whether an own locator of the family of an address is up.
    pub(crate) fn has_ours(&self, to: &Addr) -> bool
        ensures { result ≡ is_some (ours self.now.locators to.now) }
    {
        any_up(self.settings.locators.as_slice(), self.own.ups, to)
    }

    /// Whether a locator may get SMRs for changes: it isn't an own one, and an own locator of its
    /// family is up.
    pub(crate) fn is_told(&self, address: Addr) -> bool
        ensures { result ≡ is_told self.now address }
    {
        !self.is_own(address) && self.has_ours(&address)
    }

    /// The status bits of the own locators; the lowest bit is that of the first one.
    pub(crate) fn own_bits(&self) -> u32
        requires { IsSite self.now }
        ensures { result ≡ own_bits self.now.locators }
    {
        let (locators, ups) = self.locators();
        few_bits(locators, ups)
    }

    /// The own locators as the settings have them, in order of address, and the bits of those that
    /// are up; the lowest bit is that of the first one.
    pub(crate) fn locators(&self) -> (&'s [OwnLocator], u32)
        ensures stand { with_ups result.1 result.0.now ≡ self.now.locators }
        ensures few { IsSite self.now → length result.0.now ≤ most_locators }
    {
        (self.settings.locators.as_slice(), self.own.ups)
    }

    /// The prefixes of the site as the settings have them, in order of EID, and by how many steps
    /// their versions went on.
    pub(crate) fn databases(&self) -> (&'s [Database], u32)
        ensures stand { map (stood result.1) result.0.now ≡ self.now.databases }
        ensures lawful { IsSite self.now → All IsLawfulDatabase result.0.now }
    {
        (self.settings.databases.as_slice(), self.own.steps)
    }

    /// The longest prefix of the site in an instance that covers an address, with its version as it
    /// stands, or None.
    pub(crate) fn home(&self, iid: u32, address: &Addr) -> Option<Database>
        requires { IsSite self.now }
        ensures { result ≡ home_of self.now.databases iid address.now }
    {
        match home(self.settings, iid, address) {
            None => None,
            Some(database) => Some(stood(database, self.own.steps)),
        }
    }

    /// The version of the site's prefix that a packet leaves, or the verdict on a packet that stays
    /// out of a tunnel.
    pub(crate) fn leaving_version(&self, iid: u32, header: &IpHeader) -> Result<u16, Verdict>
        requires { IsSite self.now }
        ensures leaves { IfOk result (λ version.
            first_failing (site_cases self.now iid header.now) ≡ None) }
        ensures version { IfOk result (λ version. version
            ≡ home_version (home_of self.now.databases iid (source_of header.now))) }
        ensures bits { IfOk result (λ version. version ≤ most_version) }
        ensures stays { IfErr result (λ verdict.
            first_failing (site_cases self.now iid header.now) ≡ Some verdict) }
        ensures quiet { IfErr result (λ verdict. packet_of verdict ≡ None) }
    {
        match leaving_from(self.settings, iid, header) {
            Ok(database) => Ok(stood_version(database, &self.own)),
            Err(verdict) => Err(verdict),
        }
    }

    /// The static mappings of the settings, in order of EID.
    pub(crate) fn mappings(&self) -> &'s [Record]
        ensures { result.now ≡ self.now.mappings }
    {
        self.settings.mappings.as_slice()
    }

    /// The Map-Resolver, if there is one.
    pub(crate) fn resolver(&self) -> Option<Addr>
        ensures { result ≡ self.now.resolver }
    {
        self.settings.resolver
    }

    /// Whether the resolver is reached: there is one, and an own locator of its family is up.
    pub(crate) fn reaches_resolver(&self) -> bool
        ensures { result ≡ reaches_resolver self.now }
    {
        match self.resolver() {
            None => false,
            Some(resolver) => self.has_ours(&resolver),
        }
    }

    /// The TTL of own mappings, in minutes.
    pub(crate) fn ttl(&self) -> u32
        ensures { result ≡ self.now.ttl }
    {
        self.settings.ttl
    }

    /// Whether the setting `probe` is on: locators are probed.
    pub(crate) fn probes(&self) -> bool
        ensures { result ≡ self.now.probe }
    {
        self.settings.probe
    }

    /// Whether the setting `echo` is on: echoes are requested of locators.
    pub(crate) fn asks_echoes(&self) -> bool
        ensures { result ≡ self.now.echo }
    {
        self.settings.echo
    }

    /// Nonce `i`, counted from 0, in the order in which nonces are used.
    pub(crate) fn nonce_at(&self, i: u64) -> u64
        requires { i - length self.now.nonces < 2 ^ 63 }
        ensures { result ≡ nonce_of self.now.seed self.now.nonces i }
    {
        nonce_at(self.settings, i)
    }
}

/// The first of these own locators that is up and of the family of an address, or None.
pub(crate) fn ours(locators: &[OwnLocator], to: Addr) -> Option<Addr>
    ensures first { result ≡ ours locators.now to }
    ensures family { IfSome result (λ own. width own ≡ width to) }
{
    let [own, others @ ..] = locators else {
        return None;
    };
    if own.up && own.addr.width() == to.width() {
        return Some(own.addr);
    }
    ours(others, to)
}

// The first of these own locators that is up and of the family of an address, or None. The lowest
// bit of `ups` marks whether the first of all is up, and so on.
fn first_up(locators: &[OwnLocator], ups: u32, to: Addr) -> Option<Addr>
    ensures first { result ≡ ours (with_ups ups locators.now) to }
    ensures family { IfSome result (λ own. width own ≡ width to) }
{
    let [own, others @ ..] = locators else {
        return None;
    };
    if is_first_up(ups) && own.addr.width() == to.width() {
        return Some(own.addr);
    }
    first_up(others, ups / 2, to)
}

// Whether one of these own locators is up and of the family of an address. The lowest bit of `ups`
// marks whether the first of all is up, and so on.
fn any_up(locators: &[OwnLocator], ups: u32, to: &Addr) -> bool
    ensures { result ≡ is_some (ours (with_ups ups locators.now) to.now) }
{
    let [own, others @ ..] = locators else {
        return false;
    };
    if is_first_up(ups) && own.addr.width() == to.width() {
        return true;
    }
    any_up(others, ups / 2, to)
}

// Whether the first own locator is up: the lowest bit of `ups`.
pub(crate) fn is_first_up(ups: u32) -> bool
    ensures { result ≡ bit 0 ups }
{
    ups % 2 == 1
}

// The status bits of own locators, of which `ups` marks those that are up; the lowest bit is that
// of the first one.
fn few_bits(locators: &[OwnLocator], ups: u32) -> u32
    requires { length locators.now ≤ most_locators }
    ensures { result ≡ own_bits (with_ups ups locators.now) }
{
    up_bits(locators, ups) as u32
}

// The status bits of own locators, of which `ups` marks those that are up, in 64 bits: at most one
// bit for each locator.
fn up_bits(locators: &[OwnLocator], ups: u32) -> u64
    requires { length locators.now ≤ most_locators }
    ensures bits { result ≡ own_bits (with_ups ups locators.now) }
    ensures few { result < 2 ^ length locators.now }
{
    let [_, others @ ..] = locators else {
        return 0;
    };
    u64::from(is_first_up(ups)) + 2 * up_bits(others, ups / 2)
}

/// The status bits of own locators, one for each; the lowest bit is that of the first one.
pub(crate) fn own_bits(locators: &[OwnLocator]) -> u64
    requires { length locators.now ≤ most_locators }
    ensures bits { result ≡ own_bits locators.now }
    ensures few { result < 2 ^ length locators.now }
{
    let [own, others @ ..] = locators else {
        return 0;
    };
    u64::from(own.up) + 2 * own_bits(others)
}

/// The instance that a VLAN is attached to, or None. The attachments are in order of their VLANs.
pub(crate) fn instance_of(attachments: &[Attachment], vlan: u16) -> Option<u32>
    requires { IsStrictlySortedBy nat_cmp (map (λ attachment. attachment.vlan) attachments.now) }
    ensures { result ≡ instance_of attachments.now vlan }
{
    match attachments.binary_search_by_key(&vlan, |attachment| attachment.vlan) {
        Ok(at) => Some(attachments[at].iid),
        Err(_) => None,
    }
}
