// Laws of reading and writing EIDs and records. Each function has an empty body and states one law.
ghost use Rattle.std.specs.Prelude.{◌≡◌, ◌↔◌, ◌++◌, ℕ, List, All, Option, None, IfSome, IsFalse, length};
ghost use Rattle.octets.specs.Rules.{first_failing};
ghost use Rattle.ip_headers.specs.declared.addr.Addr.{Addr};
ghost use Rattle.mapping_records.specs.Record.{canonical_record, record_rules, record_size, IsLawful, IsRecordAt, SpellsRecord};
ghost use Rattle.mapping_records.specs.declared.record.Record.{Record};
ghost use Rattle.mapping_records.specs.Eid.{canonical_eid, eid_at, eid_rules, InRangeEid, SpellsEid};
ghost use Rattle.mapping_records.specs.Eids.{covers_prefix, longest, IsLongest};
ghost use Rattle.mapping_records.specs.declared.eid.Eid.{Eid};

/// Law: the written octets of an EID spell it, whatever follows.
pub fn canonical_eid_spells()
    ensures { (iid : ℕ) (host : Option Addr) (rest : List ℕ) → InRangeEid iid host
        → SpellsEid (canonical_eid iid host ++ rest) (iid, host, length (canonical_eid iid host)) }
{}

/// Law: octets that obey the rules begin with exactly one EID, of one size.
pub fn one_eid_is_spelled()
    ensures spells { (base : ℕ) (octets : List ℕ) → first_failing (eid_rules base octets) ≡ None
        → SpellsEid octets (eid_at octets) }
    ensures one { (octets : List ℕ) (a b : ℕ × Option Addr × ℕ)
        → SpellsEid octets a → SpellsEid octets b → a ≡ b }
{}

/// Law: an EID that was written is read again, with exactly its octets consumed, whatever follows.
pub fn written_eid_is_read_again()
    ensures rules { (base iid : ℕ) (host : Option Addr) (rest : List ℕ) → InRangeEid iid host
        → first_failing (eid_rules base (canonical_eid iid host ++ rest)) ≡ None }
    ensures value { (iid : ℕ) (host : Option Addr) (rest : List ℕ) → InRangeEid iid host
        → eid_at (canonical_eid iid host ++ rest) ≡ (iid, host, length (canonical_eid iid host)) }
{}

/// Law: the written octets of a record spell it, whatever follows.
pub fn canonical_record_spells()
    ensures { (mapping : Record) (rest : List ℕ) → IsLawful mapping
        → SpellsRecord (canonical_record mapping ++ rest) mapping (length (canonical_record mapping)) }
{}

/// Law: octets that obey the rules begin with exactly one record, of one size.
pub fn one_record_is_spelled()
    ensures some { (base : ℕ) (octets : List ℕ) → first_failing (record_rules base octets) ≡ None
        → (mapping : Record) × IsRecordAt octets mapping }
    ensures spells { (base : ℕ) (octets : List ℕ) (mapping : Record)
        → first_failing (record_rules base octets) ≡ None → IsRecordAt octets mapping
        → SpellsRecord octets mapping (record_size octets) }
    ensures one { (octets : List ℕ) (a b : Record) (m n : ℕ)
        → SpellsRecord octets a m → SpellsRecord octets b n → (a ≡ b) × (m ≡ n) }
{}

/// Law: a record that was written is read again, with exactly its octets consumed, whatever
/// follows.
pub fn written_record_is_read_again()
    ensures rules { (base : ℕ) (mapping : Record) (rest : List ℕ) → IsLawful mapping
        → first_failing (record_rules base (canonical_record mapping ++ rest)) ≡ None }
    ensures value { (mapping read : Record) (rest : List ℕ) → IsLawful mapping
        → IsRecordAt (canonical_record mapping ++ rest) read → read ≡ mapping }
    ensures size { (mapping : Record) (rest : List ℕ) → IsLawful mapping
        → record_size (canonical_record mapping ++ rest) ≡ length (canonical_record mapping) }
{}

/// Law: the longest item that covers a prefix is one of the items, and covers it; no item that
/// covers it is longer. There is no longest one exactly where no item covers the prefix.
pub fn no_longer_one_covers<T>()
    ensures some { (key : T → Eid) (items : List T) (iid : ℕ) (addr : Addr) (len : ℕ)
        → IfSome (longest key items iid addr len) (IsLongest key items iid addr len) }
    ensures none { (key : T → Eid) (items : List T) (iid : ℕ) (addr : Addr) (len : ℕ)
        → (longest key items iid addr len ≡ None)
        ↔ All (λ item. IsFalse (covers_prefix (key item) iid addr len)) items }
{}
