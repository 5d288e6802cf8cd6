// Missing mappings, the Map-Requests for them, and Map-Replies.
#![tactic(auto, unfolding(crate::proofs::OnLiterals::router_on_literals))]

ghost use Rattle.std.specs.Prelude.{◌≡◌, [], ◌∷◌, ◌++◌, codes, false, map, replicate, None, Some};
ghost use Rattle.ip_headers.specs.declared.addr.Addr.TheVariants.{V4};
ghost use Rattle.router_log.specs.declared.entry.Entry.TheVariants.{Answered, Asked, Learned};
ghost use Rattle.router_log.specs.declared.notice.Notice.TheVariants as notice;
ghost use Rattle.router_model.specs.Tenants.{notice_instance};
ghost use Rattle.router_examples.specs.Frames.{encapsulated_in_100, packet, seconds, tenths};
ghost use Rattle.router_examples.specs.Messages as message;
ghost use Rattle.router_examples.specs.Replays.{answered_by, at_the_end_of, busy_exchange, exchange, frames, kept, packet_at, reply_at, report, said, sent};
ghost use Rattle.router_examples.specs.Sites.{asking_site, far, host, locator, mapping, wide};

/// A missing mapping is requested, learned, and used.
pub fn a_missing_mapping_is_asked_for()
    ensures lines { said asking_site (frames exchange) ≡ report (
        codes "1 1700000000.000000000 n=0 drop 13 miss"
        ∷ codes "2 1700000000.100000000 n=1 control reply learned=1 passed=0"
        ∷ codes "3 1700000000.200000000 n=3 encapsulated 192.0.2.1 198.51.100.7 64519"
        ∷ []) }
    ensures packets { sent asking_site (frames exchange)
        ≡ packet_at (tenths 0) message.asked ∷ packet_at (tenths 2) encapsulated_in_100 ∷ [] }
    ensures journal { kept asking_site (frames exchange)
        ≡ Learned (tenths 1) (mapping 60 wide (locator far ∷ [])) false
        ∷ Answered (tenths 1) 0x0102030405060708
        ∷ Asked (tenths 0) host (Some (V4 0x0a010005)) false 0x0102030405060708
        ∷ [] }
{}

/// One Map-Request is sent for all packets that come while it is open.
pub fn a_mapping_is_asked_for_once()
    ensures lines { said asking_site (frames busy_exchange) ≡ report (
        codes "1 1700000000.000000000 n=0 drop 13 miss"
        ∷ codes "2 1700000000.100000000 n=1 drop 13 miss"
        ∷ codes "3 1700000000.200000000 n=1 drop 13 miss"
        ∷ codes "4 1700000000.300000000 n=1 drop 13 miss"
        ∷ codes "5 1700000000.400000000 n=1 drop 13 miss"
        ∷ codes "6 1700000000.500000000 n=1 control reply learned=1 passed=0"
        ∷ codes "7 1700000000.600000000 n=3 encapsulated 192.0.2.1 198.51.100.7 64519"
        ∷ codes "8 1700000000.700000000 n=3 encapsulated 192.0.2.1 198.51.100.7 64519"
        ∷ []) }
    ensures packets { sent asking_site (frames busy_exchange)
        ≡ packet_at (tenths 0) message.asked
        ∷ packet_at (tenths 6) encapsulated_in_100
        ∷ packet_at (tenths 7) encapsulated_in_100
        ∷ [] }
{}

/// A Map-Reply counts once, and one with another nonce doesn't count.
pub fn a_reply_counts_once()
    ensures lines { said asking_site (frames (
        exchange ++ message.reply ∷ message.reply_to_none ∷ []))
        ≡ said asking_site (frames exchange) ++ report (
        codes "4 1700000000.300000000 n=3 drop 21 unsolicited"
        ∷ codes "5 1700000000.400000000 n=3 drop 21 unsolicited"
        ∷ []) }
    ensures journal { kept asking_site (frames (
        exchange ++ message.reply ∷ message.reply_to_none ∷ []))
        ≡ kept asking_site (frames exchange) }
{}

/// A Map-Reply counts while its request is less than seven seconds old.
pub fn a_reply_comes_within_seven_seconds()
    ensures within { reply_at 1700000006999999999 ≡ codes "control reply learned=1 passed=0" }
    ensures late { reply_at (seconds 7) ≡ codes "drop 21 unsolicited" }
{}

/// A Map-Reply without a record that covers the requested EID is dropped.
pub fn a_reply_covers_what_was_asked()
    ensures lines { said asking_site (frames (packet ∷ message.reply_of_another ∷ [])) ≡ report (
        codes "1 1700000000.000000000 n=0 drop 13 miss"
        ∷ codes "2 1700000000.100000000 n=1 drop 22 unfit"
        ∷ []) }
    ensures journal { kept asking_site (frames (packet ∷ message.reply_of_another ∷ []))
        ≡ Asked (tenths 0) host (Some (V4 0x0a010005)) false 0x0102030405060708 ∷ [] }
{}

/// A record beside the one that covers the requested EID is passed over.
pub fn a_record_beside_is_passed_over()
    ensures lines { said asking_site (frames (packet ∷ message.reply_with_another ∷ [])) ≡ report (
        codes "1 1700000000.000000000 n=0 drop 13 miss"
        ∷ codes "2 1700000000.100000000 n=1 control reply learned=1 passed=1"
        ∷ []) }
    ensures journal { kept asking_site (frames (packet ∷ message.reply_with_another ∷ []))
        ≡ Learned (tenths 1) (mapping 60 wide (locator far ∷ [])) false
        ∷ Answered (tenths 1) 0x0102030405060708
        ∷ Asked (tenths 0) host (Some (V4 0x0a010005)) false 0x0102030405060708
        ∷ [] }
{}

/// A mapping lives until its TTL is over, to the nanosecond.
pub fn a_mapping_lasts_to_the_nanosecond()
    ensures { said asking_site (at_the_end_of message.reply_for_a_minute) ≡ report (
        codes "1 1700000000.000000000 n=0 drop 13 miss"
        ∷ codes "2 1700000000.100000000 n=1 control reply learned=1 passed=0"
        ∷ codes "3 1700000060.099999999 n=3 encapsulated 192.0.2.1 198.51.100.7 64519"
        ∷ codes "4 1700000060.100000000 n=3 drop 13 miss"
        ∷ []) }
{}

/// When the longest mapping that covers a destination ends, the next longest is in force.
pub fn a_shorter_prefix_follows_a_longer_one()
    ensures { said asking_site (at_the_end_of message.reply_of_two) ≡ report (
        codes "1 1700000000.000000000 n=0 drop 13 miss"
        ∷ codes "2 1700000000.100000000 n=1 control reply learned=2 passed=0"
        ∷ codes "3 1700000060.099999999 n=4 encapsulated 192.0.2.1 198.51.100.8 64519"
        ∷ codes "4 1700000060.100000000 n=4 encapsulated 192.0.2.1 198.51.100.7 64519"
        ∷ []) }
{}

/// A control message without a UDP checksum is dropped.
pub fn a_message_has_a_checksum()
    ensures { said asking_site (frames (message.reply_unsummed ∷ [])) ≡ report (
        codes "1 1700000000.000000000 n=0 drop 1 refused udp 26 udp-checksum" ∷ []) }
{}

/// A control message that breaks a rule is refused at the first place where it breaks one.
pub fn a_message_is_refused_at_its_first_fault()
    ensures { said asking_site (frames (message.reply_cut ∷ message.reply_of_mask_33
        ∷ message.reply_of_length_11 ∷ message.reply_cut_in_locator ∷ [])) ≡ report (
        codes "1 1700000000.000000000 n=0 drop 1 refused message 28 short"
        ∷ codes "2 1700000000.100000000 n=0 drop 1 refused message 45 mask-length"
        ∷ codes "3 1700000000.200000000 n=0 drop 1 refused message 56 lcaf-length"
        ∷ codes "4 1700000000.300000000 n=0 drop 1 refused message 56 short"
        ∷ []) }
{}

/// The instance of a Map-Reply is that of the request that it answers. A Map-Reply to no request,
/// one that a rule refuses, an answer to a probe, an encapsulated message, an SMR and a data packet
/// have none.
pub fn a_reply_is_of_the_instance_of_its_request()
    ensures one { map answered_by (message.reply ∷ message.reply_of_another ∷ [])
        ≡ Some 100 ∷ Some 100 ∷ [] }
    ensures none { map answered_by (message.reply_to_none ∷ message.reply_unsummed
        ∷ message.reply_cut ∷ message.first_answer ∷ message.carried_reply ∷ message.smr
        ∷ packet ∷ []) ≡ replicate 7 None }
{}

/// The instance of a notice is that of its EID; a notice of an echo, of data or of an SMR, which is
/// about a locator, has none.
pub fn a_notice_is_of_the_instance_of_its_eid()
    ensures one { map notice_instance (notice.Ask host None ∷ notice.Refresh wide
        ∷ notice.Bits wide far 1 8 ∷ []) ≡ replicate 3 (Some 100) }
    ensures none { map notice_instance (notice.EchoWanted far 1 ∷ notice.EchoHeard far 1
        ∷ notice.DataFrom far ∷ notice.Solicit far wide ∷ notice.EchoDue far ∷ [])
        ≡ replicate 5 None }
{}
