// Keys of EIDs, which a way down compares.
ghost use Rattle.std.specs.Prelude.{◌≡◌, ◌≤◌, ◌<◌, ◌+◌, ◌*◌, ◌^◌, ◌/◌, ◌%◌, ◌==◌};
ghost use Rattle.ip_headers.specs.Addr.{first_bits, number};
ghost use Rattle.mapping_records.specs.Eids.{covers_eid};
ghost use Rattle.mapping_records.specs.declared.eid.Eid.{Eid};
ghost use Rattle.prefix_table.specs.Keys.{key_of, key_width};

use mapping_records::{Addr, Eid};

/// The key of an EID: 24 octets, where an `Eid` takes 64, so that nodes lie close together.
#[derive(Clone, Copy, Drop)]
pub(crate) struct Key {
    // The address as a number, in two halves.
    high: u64,
    low: u64,
    iid: u32,
    // The number of bits of its family's addresses, and how many count.
    width: u8,
    pub(crate) len: u8,
}

// Fields lie in the order of the source: in another one a `Key` takes more octets.
const _: () = prove!(std::mem::size_of::<Key>() == 24);

impl Key {
    /// The key of an EID.
    pub(crate) fn of(eid: &Eid) -> Key
        ensures { result ≡ key_of eid.now }
    {
        let addr = eid.prefix.addr;
        let (high, low) = halves(addr);
        Key {
            high,
            low,
            iid: eid.iid,
            width: addr.width(),
            len: eid.prefix.len,
        }
    }

    /// Whether the EID of this key covers that of the other.
    pub(crate) fn covers(&self, other: &Key) -> bool
        requires len { self.now.len ≤ self.now.width }
        requires width { self.now.width ≤ 128 }
        ensures { (a b : Eid) → self.now ≡ key_of a → other.now ≡ key_of b
            → result ≡ covers_eid a b }
    {
        if self.iid != other.iid || self.width != other.width {
            return false;
        }
        self.begins(other)
    }

    /// Whether the EID of this key covers that of the other, where both are of one instance and
    /// family.
    pub(crate) fn begins(&self, other: &Key) -> bool
        requires len { self.now.len ≤ self.now.width }
        requires width { self.now.width ≤ 128 }
        ensures { (a b : Eid) → self.now ≡ key_of a → other.now ≡ key_of b
            → a.iid ≡ b.iid → key_width a ≡ key_width b → result ≡ covers_eid a b }
    {
        if self.len > other.len {
            return false;
        }
        let past = self.width - self.len;
        is_same_above(past, self.high, self.low, other.high, other.low)
    }

    /// The bit of the address behind its first `len` bits.
    pub(crate) fn next_bit(&self, len: u8) -> bool
        requires len { len < self.now.width }
        requires width { self.now.width ≤ 128 }
        ensures { (a : Eid) → self.now ≡ key_of a
            → result ≡ (first_bits a.prefix.addr (len + 1) % 2 == 1) }
    {
        is_set(self.width - 1 - len, self.high, self.low)
    }
}

// Whether two numbers, each in two halves, are the same but for `past` of their lowest bits.
#[tactic(auto, using(crate::proofs::HalfLemmas::same_high, crate::proofs::HalfLemmas::high_differs, crate::proofs::HalfLemmas::same_upper))]
fn is_same_above(past: u8, high: u64, low: u64, other_high: u64, other_low: u64) -> bool
    requires { past ≤ 128 }
    ensures { result ≡ ((high * 2 ^ 64 + low) / 2 ^ past
        == (other_high * 2 ^ 64 + other_low) / 2 ^ past) }
{
    if past < 64 {
        return high == other_high && low >> past == other_low >> past;
    }
    // A half can't be shifted by all of its bits.
    past == 128 || high >> (past - 64) == other_high >> (past - 64)
}

// The bit of a number in two halves that has `place` bits below it.
#[tactic(auto, using(crate::proofs::HalfLemmas::bit_lower, crate::proofs::HalfLemmas::bit_upper))]
fn is_set(place: u8, high: u64, low: u64) -> bool
    requires { place < 128 }
    ensures { result ≡ ((high * 2 ^ 64 + low) / 2 ^ place % 2 == 1) }
{
    if place < 64 {
        return (low >> place) % 2 == 1;
    }
    (high >> (place - 64)) % 2 == 1
}

// An address as a number, in two halves.
fn halves(addr: Addr) -> (u64, u64)
    ensures high { result.0 ≡ number addr / 2 ^ 64 }
    ensures low { result.1 ≡ number addr % 2 ^ 64 }
{
    match addr {
        Addr::V4(n) => (0, u64::from(n)),
        Addr::V6(n) => ((n >> 64) as u64, (n % (1 << 64)) as u64),
    }
}
