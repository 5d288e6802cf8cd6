// The line of a frame in a report.
ghost use Rattle.std.specs.Prelude.{◌≡◌, ◌≤◌, ◌+◌, ◌∷◌, ◌++◌, length, drop, codes, IfOk, OnOk};
ghost use Rattle.std.specs.Fmt.{decimal};
ghost use Rattle.router_log.specs.Numbers.{address_text};
ghost use Rattle.router_log.specs.Lines.{done_text, frame_line, length_text, moment_text, reason_text, verdict_text};

use crate::digits::{MOST_DIGITS, write_behind, write_digits, write_octet, write_octets};
use crate::numbers::{MOST_ADDRESS, write_address, write_named, write_nine};
use crate::refusals::{MOST_REFUSED, write_refused};
use crate::{Done, Reason, Verdict};
use ip_headers::Addr;
use octets::{NoMemory, Octets};
use std::alloc::Global;

/// The line of a frame: its number, its moment in nanoseconds, the length of the journal by which
/// it was decided, and its verdict.
pub fn frame_line(
    alloc: Global,
    frame: u32,
    moment: u64,
    n: u64,
    verdict: &Verdict,
) -> Result<Octets, NoMemory>
    ensures { IfOk result (λ line. line ≡ frame_line frame moment n verdict.now) }
{
    let mut line = Octets::new(alloc);
    push_frame_line(frame, moment, n, verdict, &mut line)?;
    Ok(line)
}

/// Appends the line of a frame, if memory isn't refused.
pub fn push_frame_line(
    frame: u32,
    moment: u64,
    n: u64,
    verdict: &Verdict,
    out: &mut Octets,
) -> Result<(), NoMemory>
    ensures { OnOk result (out.new ≡ out.old ++ frame_line frame moment n verdict.now) }
{
    let mut text = [0u8; MOST_FRONT + MOST_VERDICT + 1];
    let end = write_octet(b'\n', &mut text, MOST_FRONT + MOST_VERDICT + 1);
    let end = write_verdict(verdict, &mut text, end);
    let from = write_front(frame, moment, n, &mut text, end);
    out.append(&text[from..])
}

// The most octets of a line before the verdict: three numbers, nine digits, and what stands between
// them.
const MOST_FRONT: usize = 75;

// Writes the part of a line before the verdict: number, moment, and length of the journal.
#[tactic(auto, using(crate::proofs::DigitLemmas::length_any), unfolding(crate::specs::Numbers::named))]
fn write_front(frame: u32, moment: u64, n: u64, text: &mut [u8], end: usize) -> usize
    requires { (MOST_FRONT ≤ end) × (end ≤ length text.old) }
    ensures place { result ≤ end }
    ensures written { drop result text.new
        ≡ decimal frame ++ (moment_text moment ++ (length_text n ++ drop end text.old)) }
{
    let end = write_octet(b' ', text, end);
    let end = write_digits(n, text, end);
    let end = write_octets(b" n=", text, end);
    let end = write_nine((moment % 1_000_000_000) as u32, text, end);
    let end = write_octet(b'.', text, end);
    let end = write_behind(b' ', moment / 1_000_000_000, text, end);
    write_digits(u64::from(frame), text, end)
}

// The most octets of a verdict, those of `encapsulated`: a word, two addresses, a port of five
// digits, and the spaces between them.
const MOST_VERDICT: usize = 13 + 2 * MOST_ADDRESS + 7;

fn write_verdict(verdict: &Verdict, text: &mut [u8], end: usize) -> usize
    requires { (MOST_VERDICT ≤ end) × (end ≤ length text.old) }
    ensures place { (result ≤ end) × (end ≤ result + MOST_VERDICT) }
    ensures written { drop result text.new ≡ verdict_text verdict.now ++ drop end text.old }
{
    match verdict {
        Verdict::Own => write_octets(b"own", text, end),
        Verdict::Local => write_octets(b"local", text, end),
        Verdict::Encapsulated { from, to, port, .. } => {
            write_encapsulated(*from, *to, *port, text, end)
        }
        Verdict::Delivered { iid, .. } => write_named(b"delivered ", u64::from(*iid), text, end),
        Verdict::Native { .. } => write_octets(b"native", text, end),
        Verdict::Control(done) => {
            let end = write_done(*done, text, end);
            write_octets(b"control ", text, end)
        }
        Verdict::Drop(reason) => {
            let end = write_reason(*reason, text, end);
            write_octets(b"drop ", text, end)
        }
    }
}

#[tactic(auto, using(crate::proofs::DigitLemmas::length_port))]
fn write_encapsulated(from: Addr, to: Addr, port: u16, text: &mut [u8], end: usize) -> usize
    requires { (MOST_VERDICT ≤ end) × (end ≤ length text.old) }
    ensures place { (result ≤ end) × (end ≤ result + MOST_VERDICT) }
    ensures written { drop result text.new ≡ codes "encapsulated " ++ (address_text from
        ++ (32 ∷ (address_text to ++ (32 ∷ (decimal port ++ drop end text.old))))) }
{
    let end = write_behind(b' ', u64::from(port), text, end);
    let end = write_address(to, text, end);
    let end = write_octet(b' ', text, end);
    let end = write_address(from, text, end);
    write_octets(b"encapsulated ", text, end)
}

// The most octets of the effect of a control message: two names and two numbers.
const MOST_DONE: usize = 14 + 8 + 2 * MOST_DIGITS;

fn write_done(done: Done, text: &mut [u8], end: usize) -> usize
    requires { (MOST_DONE ≤ end) × (end ≤ length text.old) }
    ensures place { (result ≤ end) × (end ≤ result + MOST_DONE) }
    ensures written { drop result text.new ≡ done_text done ++ drop end text.old }
{
    match done {
        Done::Answered(records) => {
            write_named(b"request answered=", u64::from(records), text, end)
        }
        Done::Solicited(asked) => write_named(b"solicit asked=", u64::from(asked), text, end),
        Done::Learned(taken, passed) => {
            let end = write_named(b" passed=", u64::from(passed), text, end);
            write_named(b"reply learned=", u64::from(taken), text, end)
        }
        Done::ProbeReply => write_octets(b"probe-reply", text, end),
    }
}

// The most octets of a reason, those of `refused`: its number, its word, and the refusal.
const MOST_REASON: usize = 10 + MOST_REFUSED;

fn write_reason(reason: Reason, text: &mut [u8], end: usize) -> usize
    requires { (MOST_REASON ≤ end) × (end ≤ length text.old) }
    ensures place { (result ≤ end) × (end ≤ result + MOST_REASON) }
    ensures written { drop result text.new ≡ reason_text reason ++ drop end text.old }
{
    match reason {
        Reason::Refused(refused) => {
            let end = write_refused(refused, text, end);
            write_octets(b"1 refused ", text, end)
        }
        Reason::NotTunnel => write_octets(b"2 not-tunnel", text, end),
        Reason::Fragment => write_octets(b"3 fragment", text, end),
        Reason::Encrypted => write_octets(b"4 encrypted", text, end),
        Reason::NotOurs => write_octets(b"5 not-ours", text, end),
        Reason::DestVersionNewer => write_octets(b"6 dest-version-newer", text, end),
        Reason::SourceVersionOlder => write_octets(b"7 source-version-older", text, end),
        Reason::CongestionMark => write_octets(b"8 congestion-mark", text, end),
        Reason::TtlExpired => write_octets(b"9 ttl-expired", text, end),
        Reason::NoAttachment => write_octets(b"10 no-attachment", text, end),
        Reason::Multicast => write_octets(b"11 multicast", text, end),
        Reason::NotSite => write_octets(b"12 not-site", text, end),
        Reason::Miss => write_octets(b"13 miss", text, end),
        Reason::NoAction => write_octets(b"14 no-action", text, end),
        Reason::SendRequest => write_octets(b"15 send-request", text, end),
        Reason::DropNoReason => write_octets(b"16 drop-no-reason", text, end),
        Reason::DropPolicy => write_octets(b"17 drop-policy", text, end),
        Reason::DropAuth => write_octets(b"18 drop-auth", text, end),
        Reason::NoLocator => write_octets(b"19 no-locator", text, end),
        Reason::TooBig => write_octets(b"20 too-big", text, end),
        Reason::Unsolicited => write_octets(b"21 unsolicited", text, end),
        Reason::Unfit => write_octets(b"22 unfit", text, end),
        Reason::Foreign => write_octets(b"23 foreign", text, end),
        Reason::NoReplyPath => write_octets(b"24 no-reply-path", text, end),
        Reason::Unexpected => write_octets(b"25 unexpected", text, end),
    }
}
