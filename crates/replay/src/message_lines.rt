// The lines that show control messages.
ghost use Rattle.std.specs.Prelude.{◌≡◌, ◌++◌, ◌+◌, ◌≤◌, drop, flat_map, length, OnOk};
ghost use Rattle.replay.specs.Messages.{counts_text, details_text, eid_text, flag_text, line_of_eid, line_of_record, lines_of_carried, lines_of_message, lines_of_reply, lines_of_request, reply_line, request_line};

use map_messages::{Eid, MapReply, MapRequest, Message, Record};
use octets::{NoMemory, Octets};
use router_log::{
    MOST_ADDRESS, MOST_DIGITS, write_address, write_behind, write_digits, write_hex, write_named,
    write_octet, write_octets,
};

/// Appends the lines of a control message, with the number of octets that are left over.
pub(crate) fn push_message(message: &Message, left: u32, out: &mut Octets) -> Result<(), NoMemory>
    ensures { OnOk result (out.new ≡ out.old ++ lines_of_message left message.now) }
{
    match message {
        Message::Request(request) => push_request(request, left, out),
        Message::Reply(reply) => push_reply(reply, left, out),
        Message::Control(ecm) => {
            out.append(b"ecm ")?;
            push_carried(&ecm.request, &ecm.reply, left, out)
        }
    }
}

// Appends the lines of an encapsulated message, a Map-Request or a Map-Reply.
fn push_carried(
    request: &Option<MapRequest>,
    reply: &Option<MapReply>,
    left: u32,
    out: &mut Octets,
) -> Result<(), NoMemory>
    ensures { OnOk result (out.new ≡ out.old ++ lines_of_carried left request.now reply.now) }
{
    match (request, reply) {
        (Some(request), _) => push_request(request, left, out),
        (None, Some(reply)) => push_reply(reply, left, out),
        (None, None) => Ok(()),
    }
}

fn push_request(request: &MapRequest, left: u32, out: &mut Octets) -> Result<(), NoMemory>
    ensures { OnOk result (out.new ≡ out.old ++ lines_of_request left request.now) }
{
    push_request_line(request, request.eids.len(), left, out)?;
    push_eids(request.eids.as_slice(), out)
}

// The most octets of a Map-Request's line: a word, the nonce's digits, two flags behind their names, and
// the counts.
const MOST_REQUEST_LINE: usize = 14 + 16 + 2 * (3 + 1) + MOST_COUNTS;

// Appends the line of a Map-Request, with its number of EIDs.
#[tactic(auto, unfolding(crate::specs::Messages::request_line))]
fn push_request_line(
    request: &MapRequest,
    eids: usize,
    left: u32,
    out: &mut Octets,
) -> Result<(), NoMemory>
    ensures { OnOk result (out.new ≡ out.old
        ++ request_line request.now.nonce request.now.probe request.now.smr eids left) }
{
    let mut text = [0u8; MOST_REQUEST_LINE];
    let end = write_counts(eids, left, &mut text, MOST_REQUEST_LINE);
    let end = write_flag(request.smr, &mut text, end);
    let end = write_octets(b" s=", &mut text, end);
    let end = write_flag(request.probe, &mut text, end);
    let end = write_octets(b" p=", &mut text, end);
    let end = write_hex(request.nonce, &mut text, end);
    let from = write_octets(b"request nonce=", &mut text, end);
    out.append(&text[from..])
}

fn push_reply(reply: &MapReply, left: u32, out: &mut Octets) -> Result<(), NoMemory>
    ensures { OnOk result (out.new ≡ out.old ++ lines_of_reply left reply.now) }
{
    push_reply_line(reply, reply.mappings.len(), left, out)?;
    push_records(reply.mappings.as_slice(), out)
}

// The most octets of a Map-Reply's line: a word, the nonce's digits, a flag behind its name, and the
// counts.
const MOST_REPLY_LINE: usize = 12 + 16 + 3 + 1 + MOST_COUNTS;

// Appends the line of a Map-Reply, with its number of records.
#[tactic(auto, unfolding(crate::specs::Messages::reply_line))]
fn push_reply_line(
    reply: &MapReply,
    records: usize,
    left: u32,
    out: &mut Octets,
) -> Result<(), NoMemory>
    ensures { OnOk result (out.new ≡ out.old
        ++ reply_line reply.now.nonce reply.now.probe records left) }
{
    let mut text = [0u8; MOST_REPLY_LINE];
    let end = write_counts(records, left, &mut text, MOST_REPLY_LINE);
    let end = write_flag(reply.probe, &mut text, end);
    let end = write_octets(b" p=", &mut text, end);
    let end = write_hex(reply.nonce, &mut text, end);
    let from = write_octets(b"reply nonce=", &mut text, end);
    out.append(&text[from..])
}

fn write_flag(flag: bool, text: &mut [u8], end: usize) -> usize
    requires { (1 ≤ end) × (end ≤ length text.old) }
    ensures place { result + 1 ≡ end }
    ensures written { drop result text.new ≡ flag_text flag ++ drop end text.old }
{
    write_octet(if flag { b'1' } else { b'0' }, text, end)
}

// The most octets of two counts, which have names of 9 and 6 octets, and of a line's end.
const MOST_COUNTS: usize = 9 + 6 + 2 * MOST_DIGITS + 1;

#[tactic(auto, unfolding(crate::specs::Messages::counts_text))]
fn write_counts(records: usize, left: u32, text: &mut [u8], end: usize) -> usize
    requires { (MOST_COUNTS ≤ end) × (end ≤ length text.old) }
    ensures place { (result ≤ end) × (end ≤ result + MOST_COUNTS) }
    ensures written { drop result text.new ≡ counts_text records left ++ drop end text.old }
{
    let end = write_octet(b'\n', text, end);
    let end = write_named(b" left=", u64::from(left), text, end);
    write_named(b" records=", records as u64, text, end)
}

fn push_eids(eids: &[Eid], out: &mut Octets) -> Result<(), NoMemory>
    ensures { OnOk result (out.new ≡ out.old ++ flat_map line_of_eid eids.now) }
{
    for eid in eids {
        push_eid_line(eid, out)?;
    }
    Ok(())
}

// The most octets of an EID's line: a word, the EID, and a line's end.
const MOST_EID_LINE: usize = 5 + MOST_EID + 1;

fn push_eid_line(eid: &Eid, out: &mut Octets) -> Result<(), NoMemory>
    ensures { OnOk result (out.new ≡ out.old ++ line_of_eid eid.now) }
{
    let mut text = [0u8; MOST_EID_LINE];
    let end = write_octet(b'\n', &mut text, MOST_EID_LINE);
    let end = write_eid(eid, &mut text, end);
    let from = write_octets(b" eid ", &mut text, end);
    out.append(&text[from..])
}

// The most octets of an EID: two numbers, an address, and two octets between them.
const MOST_EID: usize = 2 * MOST_DIGITS + MOST_ADDRESS + 2;

// Writes the text of an EID, which ends at `end`: instance, address and mask length. Returns where
// it begins.
#[tactic(auto, using(router_log::proofs::DigitLemmas::length_any), unfolding(crate::specs::Messages::eid_text))]
fn write_eid(eid: &Eid, text: &mut [u8], end: usize) -> usize
    requires { (MOST_EID ≤ end) × (end ≤ length text.old) }
    ensures place { (result ≤ end) × (end ≤ result + MOST_EID) }
    ensures written { drop result text.new
        ≡ eid_text eid.now.iid eid.now.prefix.addr eid.now.prefix.len ++ drop end text.old }
{
    let end = write_behind(b'/', u64::from(eid.prefix.len), text, end);
    let end = write_address(eid.prefix.addr, text, end);
    let end = write_octet(b' ', text, end);
    write_digits(u64::from(eid.iid), text, end)
}

fn push_records(mappings: &[Record], out: &mut Octets) -> Result<(), NoMemory>
    ensures { OnOk result (out.new ≡ out.old ++ flat_map line_of_record mappings.now) }
{
    for mapping in mappings {
        push_record_line(mapping, out)?;
    }
    Ok(())
}

// The most octets of a record's line: a word, the EID, and the details.
const MOST_RECORD_LINE: usize = 8 + MOST_EID + MOST_DETAILS;

fn push_record_line(mapping: &Record, out: &mut Octets) -> Result<(), NoMemory>
    ensures { OnOk result (out.new ≡ out.old ++ line_of_record mapping.now) }
{
    let mut text = [0u8; MOST_RECORD_LINE];
    let end = write_details(mapping, mapping.locators.len(), &mut text, MOST_RECORD_LINE);
    let end = write_eid(&mapping.eid, &mut text, end);
    let from = write_octets(b" record ", &mut text, end);
    out.append(&text[from..])
}

// The most octets of four numbers, which have names of 5, 8, 9 and 10 octets, and of a line's end.
const MOST_DETAILS: usize = 5 + 8 + 9 + 10 + 4 * MOST_DIGITS + 1;

// Writes a record's details, which end at `end`: TTL, action, Map-Version and number of locators.
// Returns where they begin.
#[tactic(auto, unfolding(crate::specs::Messages::details_text))]
fn write_details(mapping: &Record, locators: usize, text: &mut [u8], end: usize) -> usize
    requires { (MOST_DETAILS ≤ end) × (end ≤ length text.old) }
    ensures place { (result ≤ end) × (end ≤ result + MOST_DETAILS) }
    ensures written { drop result text.new
        ≡ details_text mapping.now.ttl mapping.now.action mapping.now.version locators
        ++ drop end text.old }
{
    let end = write_octet(b'\n', text, end);
    let end = write_named(b" locators=", locators as u64, text, end);
    let end = write_named(b" version=", u64::from(mapping.version), text, end);
    let end = write_named(b" action=", u64::from(mapping.action), text, end);
    write_named(b" ttl=", u64::from(mapping.ttl), text, end)
}
