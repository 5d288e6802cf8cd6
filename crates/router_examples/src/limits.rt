// The numbers of the router, each as a worked clause: a proof ties code to a definition, and a
// definition with another number is refused here.
ghost use Rattle.std.specs.Prelude.{◌≡◌};
ghost use Rattle.capture_io.specs.Limits.{longest_span, most_frame_octets, most_records};
ghost use Rattle.encap.specs.Limits.{most_tunnel_octets};
ghost use Rattle.lisp_settings.specs.Limits.{default_minutes, most_attachments, most_changes, most_databases, most_limits, most_locators, most_mappings, most_nonces, most_open, most_requests, most_text_octets};
ghost use Rattle.locator_choice.specs.Limits.{first_port, most_candidates};
ghost use Rattle.locator_state.specs.Limits.{echo_seconds, judged_seconds, most_probes, most_solicits, most_starts, most_targets, most_wishes, probe_seconds, rest_seconds, solicit_seconds, start_seconds, wish_seconds};
ghost use Rattle.map_messages.specs.Limits.{control_hops, most_message_octets};
ghost use Rattle.request_queue.specs.Limits.{first_retry_seconds, last_retry_seconds, most_retries, request_seconds};
ghost use Rattle.router_model.specs.Limits.{control_port, data_port, most_message_records, most_notices, most_round_octets, most_told};

/// A capture has at most a billion records, each of at most 262,144 octets, and none more than
/// 1,000,000 seconds later than all before it.
pub fn captures_have_these_limits()
    ensures records { most_records ≡ 1000000000 }
    ensures octets { most_frame_octets ≡ 262144 }
    ensures span { longest_span ≡ 1000000000000000 }
{}

/// The most octets of a settings text, and the most items of each kind that settings list.
pub fn settings_have_these_limits()
    ensures text { most_text_octets ≡ 16777216 }
    ensures nonces { most_nonces ≡ 4096 }
    ensures attachments { most_attachments ≡ 4096 }
    ensures databases { most_databases ≡ 64 }
    ensures changes { most_changes ≡ 256 }
    ensures limits { most_limits ≡ 4096 }
    ensures mappings { most_mappings ≡ 65536 }
    ensures locators { most_locators ≡ 32 }
{}

/// The most requests, probes, echoes and SMRs that count at once, how often a request is sent
/// again, how many locators are probed and get SMRs in one second, and the most notices and
/// candidates of a decision.
pub fn tables_have_these_limits()
    ensures requests { most_requests ≡ 1024 }
    ensures open { most_open ≡ 16384 }
    ensures retries { most_retries ≡ 2 }
    ensures probes { most_probes ≡ 9600 }
    ensures starts { most_starts ≡ 4096 }
    ensures wishes { most_wishes ≡ 4096 }
    ensures solicits { most_solicits ≡ 4096 }
    ensures targets { most_targets ≡ 16 }
    ensures told { most_told ≡ 64 }
    ensures notices { most_notices ≡ 5 }
    ensures candidates { most_candidates ≡ 32 }
{}

/// The seconds for which requests, probes, echoes and SMRs count, and the minutes of a mapping
/// without a TTL of its own.
pub fn times_are_these()
    ensures request { request_seconds ≡ 7 }
    ensures first_retry { first_retry_seconds ≡ 1 }
    ensures last_retry { last_retry_seconds ≡ 3 }
    ensures probe { probe_seconds ≡ 600 }
    ensures judged { judged_seconds ≡ 3 }
    ensures rest { rest_seconds ≡ 60 }
    ensures start { start_seconds ≡ 60 }
    ensures echo { echo_seconds ≡ 10 }
    ensures wish { wish_seconds ≡ 2 }
    ensures solicit { solicit_seconds ≡ 10 }
    ensures mapping { default_minutes ≡ 1440 }
{}

/// The ports of tunnel packets and control messages (RFC 9300, section 5.3; RFC 9301, section 5),
/// their sizes and hops, and the most octets of a round.
pub fn packets_have_these_numbers()
    ensures data { data_port ≡ 4341 }
    ensures control { control_port ≡ 4342 }
    ensures source { first_port ≡ 49152 }
    ensures tunnel { most_tunnel_octets ≡ 1500 }
    ensures message { most_message_octets ≡ 65000 }
    ensures records { most_message_records ≡ 255 }
    ensures hops { control_hops ≡ 64 }
    ensures round { most_round_octets ≡ 16777216 }
{}
