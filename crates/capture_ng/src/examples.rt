// Worked captures, whose frames and faults the definitions compute.
#![tactic(auto, unfolding(crate::proofs::OnLiterals::captures_on_literals))]

ghost use Rattle.std.specs.Prelude.{◌≡◌, ◌+◌, ◌-◌, ◌*◌, ◌^◌, ◌++◌, Bool, true, false, [], ◌∷◌, length, map, replicate, take, drop, Some, None};
ghost use Rattle.capture_io.specs.Frames.{capture};
ghost use Rattle.capture_io.specs.declared.fault.CaptureFault.TheVariants.{BadMagic};
ghost use Rattle.capture_ng.specs.Examples.{added, at_time, big_section, cut_packet, far, fault_behind, fault_seen, moments, one_packet, packet_frame, seen_as, tagged_already, unit, untagged};
ghost use Rattle.octets.specs.Numbers.{little_octets};
ghost use Rattle.capture_ng.specs.Faults.{block_fault};
ghost use Rattle.capture_ng.specs.Frames.{ng_fault, ng_frames};
ghost use Rattle.capture_ng.specs.Spelling.{block, interface_block, option, packet_block, packet_fields, section_block, simple_block};
ghost use Rattle.capture_ng.specs.declared.fault.NgFault.TheVariants as ng;

/// A worked capture: its frame; its fault where its last four octets are missing; the fault of the
/// empty file; and the capture's fault when it is read as a classic one.
pub fn a_capture_is_worked()
    ensures frames { (vlans : Bool) → ng_frames one_packet vlans ≡ packet_frame ∷ [] }
    ensures whole { ng_fault one_packet ≡ None }
    ensures cut { ng_fault cut_packet ≡ Some (ng.CutBlock 48) }
    ensures empty { ng_fault [] ≡ Some (ng.CutBlock 0) }
    ensures classic { (capture one_packet).fault ≡ Some BadMagic }
{}

/// Timestamps are read in the unit of their interface: microseconds without if_tsresol, else the
/// last if_tsresol, decimal or binary. They are rounded down to nanoseconds, and moved by
/// if_tsoffset, also back.
pub fn times_are_read_in_units()
    ensures micro { moments (at_time [] 5) ≡ 5000 ∷ [] }
    ensures milli { moments (at_time (unit 3) 5) ≡ 5000000 ∷ [] }
    ensures nano { moments (at_time (unit 9) 5) ≡ 5 ∷ [] }
    ensures seconds { moments (at_time (unit 0) 5) ≡ 5000000000 ∷ [] }
    ensures least { moments (at_time (unit 19) (2 ^ 64 - 1)) ≡ 1844674407 ∷ [] }
    ensures binary { moments (at_time (unit (128 + 10)) 1535) ≡ 1499023437 ∷ [] }
    ensures finest { moments (at_time (unit (128 + 63)) (2 ^ 64 - 1)) ≡ 1999999999 ∷ [] }
    ensures last { moments (at_time (unit 9 ++ (unit 3 ++ option 0 [])) 5) ≡ 5000000 ∷ [] }
    ensures behind { moments (at_time (option 0 [] ++ unit 9) 5) ≡ 5000 ∷ [] }
    ensures others { moments (at_time (option 2 (101 ∷ 48 ∷ []) ++ unit 9) 5) ≡ 5 ∷ [] }
    ensures later { moments (at_time (unit 9 ++ added 2) 5) ≡ 2000000005 ∷ [] }
    ensures earlier { moments (at_time (added (2 ^ 64 - 1)) 1500000) ≡ 500000000 ∷ [] }
    ensures before { ng_fault (at_time (added (2 ^ 64 - 2)) 1500000) ≡ Some (ng.BadMoment (28 + (20 + 12))) }
    ensures most { moments (at_time [] 4294967295999999) ≡ 4294967295999999000 ∷ [] }
    ensures late { ng_fault (at_time [] 4294967296000000) ≡ Some (ng.BadMoment 48) }
{}

/// A new section has no interfaces, and its own byte order; a simple packet has the greatest moment so
/// far, and no more octets than its interface's snap length.
pub fn sections_begin_anew()
    ensures order { moments (one_packet ++ section_block) ≡ 1700000000000000000 ∷ [] }
    ensures big { moments big_section ≡ 7 ∷ [] }
    ensures both { moments (at_time (unit 9) 5 ++ big_section) ≡ 5 ∷ 7 ∷ [] }
    ensures none { ng_fault (one_packet ++ (section_block ++ packet_block 0 0 []))
        ≡ Some (ng.BadInterface (108 + 28)) }
    ensures simple { moments (at_time (unit 9) 5 ++ simple_block 1 (69 ∷ [])) ≡ 5 ∷ 5 ∷ [] }
    ensures first { moments (section_block ++ (interface_block 101 0 [] ++ simple_block 0 []))
        ≡ 0 ∷ [] }
    ensures snap { map (λ f. f.octets) (ng_frames (section_block
        ++ (interface_block 101 2 [] ++ simple_block 4 (1 ∷ 2 ∷ []))) false) ≡ (1 ∷ 2 ∷ []) ∷ [] }
    ensures running { moments (at_time (unit 9) 5 ++ packet_block 0 3 []) ≡ 5 ∷ 5 ∷ [] }
    ensures skipped { moments (at_time [] 5 ++ block 0xbad (1 ∷ 2 ∷ 3 ∷ 4 ∷ [])) ≡ 5000 ∷ [] }
{}

/// Where interfaces are VLANs, an untagged Ethernet frame gets the number of its interface as its tag.
pub fn interfaces_are_vlans()
    ensures tag { seen_as 1 untagged
        ≡ (replicate 12 2 ++ (0x81 ∷ 0 ∷ 0 ∷ 1 ∷ 8 ∷ 0 ∷ [])) ∷ [] }
    ensures first { seen_as 0 untagged ≡ untagged ∷ [] }
    ensures tagged { seen_as 1 tagged_already ≡ tagged_already ∷ [] }
    ensures short { seen_as 1 (take 13 untagged) ≡ take 13 untagged ∷ [] }
    ensures raw { seen_as 2 untagged ≡ untagged ∷ [] }
{}

/// The first rule that a file's section header breaks, or another block in its place.
pub fn a_section_is_judged()
    ensures cut { ng_fault (take 7 section_block) ≡ Some (ng.CutBlock 0) }
    ensures other { ng_fault (interface_block 101 0 []) ≡ Some ng.BadMagic }
    ensures magic_cut { ng_fault (take 11 section_block) ≡ Some (ng.CutBlock 0) }
    ensures magic { ng_fault (take 8 section_block ++ (0 ∷ 0 ∷ 0 ∷ 0 ∷ [])) ≡ Some ng.BadMagic }
    ensures magic_later { fault_behind (take 8 section_block ++ (0 ∷ 0 ∷ 0 ∷ 0 ∷ []))
        ≡ Some ng.BadMagic }
    ensures version { ng_fault (block 0x0a0d0d0a (little_octets 4 0x1a2b3c4d
        ++ (little_octets 2 2 ++ replicate 10 0))) ≡ Some (ng.BadVersion 0) }
    ensures short { ng_fault (block 0x0a0d0d0a (little_octets 4 0x1a2b3c4d ++ replicate 8 0))
        ≡ Some (ng.BadLength 0) }
{}

/// The first rule that a later block breaks, by its length, its kind and its options.
pub fn a_block_is_judged()
    ensures records { block_fault (far 5 1000000000) (simple_block 0 []) ≡ Some ng.TooManyRecords }
    ensures records_type { block_fault (far 5 1000000000) (3 ∷ 0 ∷ 0 ∷ 0 ∷ [])
        ≡ Some ng.TooManyRecords }
    ensures no_record { block_fault (far 5 1000000000) (3 ∷ 0 ∷ 0 ∷ []) ≡ Some (ng.CutBlock 0) }
    ensures others { block_fault (far 5 1000000000) (block 4 []) ≡ None }
    ensures blocks { block_fault (far 4000000000 5) (0 ∷ []) ≡ Some ng.TooManyRecords }
    ensures cut { fault_behind (take 7 (block 4 [])) ≡ Some (ng.CutBlock 28) }
    ensures uneven { fault_behind (block 4 (0 ∷ [])) ≡ Some (ng.BadLength 28) }
    ensures least { fault_behind (block 6 (replicate 16 0)) ≡ Some (ng.BadLength 28) }
    ensures least_interface { fault_behind (block 1 (replicate 4 0)) ≡ Some (ng.BadLength 28) }
    ensures long { fault_behind (little_octets 4 6 ++ little_octets 4 1048580)
        ≡ Some (ng.TooLong 28 1048580) }
    ensures long_other { fault_behind (little_octets 4 2 ++ little_octets 4 1048580)
        ≡ Some (ng.CutBlock 28) }
    ensures rest { fault_behind (take 11 (block 4 [])) ≡ Some (ng.CutBlock 28) }
    ensures differs { fault_behind (take 8 (block 4 []) ++ little_octets 4 16)
        ≡ Some (ng.BadLength 28) }
    ensures differs_old { fault_behind (take 8 (block 2 []) ++ little_octets 4 16)
        ≡ Some (ng.BadLength 28) }
    ensures old { fault_behind (block 2 []) ≡ Some (ng.OldPacket 28) }
    ensures unfit { fault_behind (interface_block 101 0 (9 ∷ 0 ∷ 5 ∷ 0 ∷ 9 ∷ 0 ∷ 0 ∷ 0 ∷ []))
        ≡ Some (ng.BadOption 28) }
    ensures unfit_other { fault_behind (interface_block 101 0 (7 ∷ 0 ∷ 5 ∷ 0 ∷ 9 ∷ 0 ∷ 0 ∷ 0 ∷ []))
        ≡ Some (ng.BadOption 28) }
    ensures behind { fault_behind (interface_block 101 0 (option 0 [] ++ (7 ∷ 0 ∷ 5 ∷ 0 ∷ [])))
        ≡ None }
    ensures unit_length { fault_behind (interface_block 101 0 (option 9 (6 ∷ 6 ∷ [])))
        ≡ Some (ng.BadOption 28) }
    ensures added_length { fault_behind (interface_block 101 0 (option 14 (6 ∷ 6 ∷ [])))
        ≡ Some (ng.BadOption 28) }
    ensures decimal { fault_behind (interface_block 101 0 (unit 20)) ≡ Some (ng.BadOption 28) }
    ensures binary { fault_behind (interface_block 101 0 (unit (128 + 64)))
        ≡ Some (ng.BadOption 28) }
{}

/// The first rule that a packet block breaks.
pub fn a_packet_is_judged()
    ensures interface { fault_seen (packet_block 1 0 []) ≡ Some (ng.BadInterface 48) }
    ensures none { fault_behind (simple_block 0 []) ≡ Some (ng.BadInterface 28) }
    ensures link { fault_behind (interface_block 0 0 [] ++ packet_fields 0 0 9 [])
        ≡ Some (ng.BadLinkType 48) }
    ensures unseen { fault_behind (interface_block 0 0 []) ≡ None }
    ensures kept { fault_seen (packet_fields 0 0 5 (1 ∷ 2 ∷ 3 ∷ 4 ∷ []))
        ≡ Some (ng.BadLength 48) }
    ensures kept_simple { fault_seen (simple_block 4 []) ≡ Some (ng.BadLength 48) }
    ensures padding { fault_seen (packet_fields 0 0 4 (1 ∷ 2 ∷ 3 ∷ [])) ≡ None }
    ensures moment { fault_seen (packet_fields 0 (2 ^ 64 - 1) 0 []) ≡ Some (ng.BadMoment 48) }
    ensures span { fault_seen (packet_block 0 0 [] ++ packet_block 0 1000000000001 [])
        ≡ Some (ng.SpanTooLong 2) }
    ensures in_span { fault_seen (packet_block 0 0 [] ++ packet_block 0 1000000000000 []) ≡ None }
{}
