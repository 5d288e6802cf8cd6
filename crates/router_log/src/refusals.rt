// The words of refusals.
ghost use Rattle.std.specs.Prelude.{◌≡◌, ◌≤◌, ◌+◌, ◌++◌, length, drop, OnOk};
ghost use Rattle.router_log.specs.Refusals.{layer_word, refused_text, why_word};

use crate::digits::{MOST_DIGITS, write_behind, write_octet, write_octets};
use octets::{Layer, NoMemory, Octets, Refused, Why};

// The most octets of a refusal: a layer, a place, a reason, and what stands between them.
pub(crate) const MOST_REFUSED: usize = 7 + 1 + MOST_DIGITS + 1 + 18;

/// Appends the layer, the place and the reason of a refusal, if memory isn't refused.
pub fn push_refused(refused: Refused, out: &mut Octets) -> Result<(), NoMemory>
    ensures { OnOk result (out.new ≡ out.old ++ refused_text refused) }
{
    let mut text = [0u8; MOST_REFUSED];
    let from = write_refused(refused, &mut text, MOST_REFUSED);
    out.append(&text[from..])
}

/// Writes a refusal before the place `end`. Returns the place of its first octet.
#[tactic(auto, using(crate::proofs::DigitLemmas::length_any))]
pub(crate) fn write_refused(refused: Refused, text: &mut [u8], end: usize) -> usize
    requires { (MOST_REFUSED ≤ end) × (end ≤ length text.old) }
    ensures place { (result ≤ end) × (end ≤ result + MOST_REFUSED) }
    ensures written { drop result text.new ≡ refused_text refused ++ drop end text.old }
{
    let end = write_octets(why_word(refused.why), text, end);
    let end = write_octet(b' ', text, end);
    let end = write_behind(b' ', u64::from(refused.place), text, end);
    write_octets(layer_word(refused.layer), text, end)
}

fn layer_word(layer: Layer) -> &'static [u8]
    ensures word { result.now ≡ layer_word layer }
    ensures short { length result.now ≤ 7 }
{
    match layer {
        Layer::Link => b"link",
        Layer::Ip => b"ip",
        Layer::Udp => b"udp",
        Layer::Lisp => b"lisp",
        Layer::Message => b"message",
    }
}

fn why_word(why: Why) -> &'static [u8]
    ensures word { result.now ≡ why_word why }
    ensures short { length result.now ≤ 18 }
{
    match why {
        Why::Short => b"short",
        Why::EtherType => b"ethertype",
        Why::Version => b"version",
        Why::HeaderLength => b"header-length",
        Why::TotalLength => b"total-length",
        Why::Checksum => b"checksum",
        Why::UdpLength => b"udp-length",
        Why::UdpChecksum => b"udp-checksum",
        Why::Afi => b"afi",
        Why::MaskLength => b"mask-length",
        Why::LcafType => b"lcaf-type",
        Why::LcafLength => b"lcaf-length",
        Why::InstanceTooLarge => b"instance-too-large",
        Why::MessageType => b"message-type",
        Why::Authenticated => b"authenticated",
        Why::InnerProtocol => b"inner-protocol",
        Why::InnerPort => b"inner-port",
    }
}
