// Keys, and their order.
ghost use Rattle.std.specs.Prelude.{◌≡◌};
ghost use Rattle.std.specs.Ordering.{is_lt};
ghost use Rattle.keyed_list.specs.Keys.{eid_key, family_of, high_of, key_order, kind_rank, locator_key, low_of, nonce_key, rest_order, same_key, told_key};

use ip_headers::Addr;
use mapping_records::Eid;
use ordered_set::Ordered;
use std::cmp::Ordering;

/// The kind of a key.
#[derive(Clone, Copy, Debug, PartialEq, Eq)]
pub(crate) enum Kind {
    Nonce,
    Locator,
    Endpoint,
    /// A locator that was solicited for an EID.
    Told,
}

impl Kind {
    fn rank(&self) -> u8
        ensures { result ≡ kind_rank self.now }
    {
        match self {
            Kind::Nonce => 0,
            Kind::Locator => 1,
            Kind::Endpoint => 2,
            Kind::Told => 3,
        }
    }
}

/// The key of an item: a nonce, a locator, an EID, or a locator and an EID. Parts that its kind
/// doesn't have are 0. Addresses are kept in halves, because most keys then differ in `low`, which
/// is compared first, and a key takes few octets.
#[derive(Clone, Copy, Debug, PartialEq, Eq, Drop)]
pub struct Key {
    // A nonce, or the low half of the locator, or of the EID's address where there is no locator.
    low: u64,
    kind: Kind,
    family: u8,
    high: u64,
    // The instance and the length of an EID.
    iid: u32,
    len: u8,
    // The address of an EID behind a locator.
    other_family: u8,
    other_high: u64,
    other_low: u64,
}

impl Key {
    /// The key of a nonce.
    pub fn nonce(nonce: u64) -> Key
        ensures { result ≡ nonce_key nonce }
    {
        Key {
            low: nonce,
            kind: Kind::Nonce,
            family: 0,
            high: 0,
            iid: 0,
            len: 0,
            other_family: 0,
            other_high: 0,
            other_low: 0,
        }
    }

    /// The key of a locator.
    pub fn locator(rloc: Addr) -> Key
        ensures { result ≡ locator_key rloc }
    {
        Key {
            low: low_of(&rloc),
            kind: Kind::Locator,
            family: family_of(&rloc),
            high: high_of(&rloc),
            iid: 0,
            len: 0,
            other_family: 0,
            other_high: 0,
            other_low: 0,
        }
    }

    /// The key of an EID.
    pub fn eid(eid: &Eid) -> Key
        ensures { result ≡ eid_key eid.now }
    {
        let addr = eid.prefix.addr;
        Key {
            low: low_of(&addr),
            kind: Kind::Endpoint,
            family: family_of(&addr),
            high: high_of(&addr),
            iid: eid.iid,
            len: eid.prefix.len,
            other_family: 0,
            other_high: 0,
            other_low: 0,
        }
    }

    /// The key of a locator that was solicited for an EID.
    pub fn told(rloc: Addr, eid: &Eid) -> Key
        ensures { result ≡ told_key rloc eid.now }
    {
        let addr = eid.prefix.addr;
        Key {
            low: low_of(&rloc),
            kind: Kind::Told,
            family: family_of(&rloc),
            high: high_of(&rloc),
            iid: eid.iid,
            len: eid.prefix.len,
            other_family: family_of(&addr),
            other_high: high_of(&addr),
            other_low: low_of(&addr),
        }
    }

    /// The order of this key and another, part by part.
    pub(crate) fn compare(&self, other: &Key) -> Ordering
        ensures { result ≡ key_order self.now other.now }
    {
        self.low.cmp(&other.low).then(self.compare_rest(other))
    }

    // The order of this key and another where `low` is the same.
    fn compare_rest(&self, other: &Key) -> Ordering
        ensures { result ≡ rest_order self.now other.now }
    {
        let by_kind = self.kind.rank().cmp(&other.kind.rank());
        let by_address = self
            .family
            .cmp(&other.family)
            .then(self.high.cmp(&other.high));
        let by_prefix = self.iid.cmp(&other.iid).then(self.len.cmp(&other.len));
        let by_other = self.other_family.cmp(&other.other_family).then(
            self.other_high
                .cmp(&other.other_high)
                .then(self.other_low.cmp(&other.other_low)),
        );
        by_kind.then(by_address.then(by_prefix.then(by_other)))
    }

    /// Whether this key is below another.
    pub(crate) fn is_below(&self, other: &Key) -> bool
        ensures { result ≡ is_lt (key_order self.now other.now) }
    {
        if self.low != other.low {
            return self.low < other.low;
        }
        self.compare_rest(other).is_lt()
    }

    pub(crate) fn is_same(&self, other: &Key) -> bool
        ensures { result ≡ same_key self.now other.now }
    {
        self.low == other.low && self.compare_rest(other).is_eq()
    }
}

// The low half of an address, all of an IPv4 address.
fn low_of(addr: &Addr) -> u64
    ensures { result ≡ low_of addr.now }
{
    match addr {
        Addr::V4(bits) => u64::from(*bits),
        Addr::V6(bits) => (*bits % 0x1_0000_0000_0000_0000) as u64,
    }
}

// The high half of an address, 0 of an IPv4 address.
fn high_of(addr: &Addr) -> u64
    ensures { result ≡ high_of addr.now }
{
    match addr {
        Addr::V4(_) => 0,
        Addr::V6(bits) => (*bits / 0x1_0000_0000_0000_0000) as u64,
    }
}

// A number for the family of an address.
fn family_of(addr: &Addr) -> u8
    ensures { result ≡ family_of addr.now }
{
    match addr {
        Addr::V4(_) => 0,
        Addr::V6(_) => 1,
    }
}

/// A key, and the number of the last item that has it.
#[derive(Clone, Copy, Debug, PartialEq, Eq, Drop)]
pub(crate) struct Mark {
    pub key: Key,
    pub number: u64,
}

impl Ordered for Mark {
    ghost use Rattle.keyed_list.specs.Keys.{mark_order, mark_order-total};

    ghost order = { mark_order };

    ghost is_total = { mark_order-total };

    fn compare(&self, other: &Self) -> Ordering {
        self.key.compare(&other.key)
    }
}

/// The moment at which the item with a number came, in nanoseconds.
#[derive(Clone, Copy, Debug, PartialEq, Eq, Drop)]
pub(crate) struct Age {
    pub moment: u64,
    pub number: u64,
}

impl Ordered for Age {
    ghost use Rattle.keyed_list.specs.Keys.{age_order, age_order-total};

    ghost order = { age_order };

    ghost is_total = { age_order-total };

    fn compare(&self, other: &Self) -> Ordering {
        let by_moment = self.moment.cmp(&other.moment);
        by_moment.then_with(|| self.number.cmp(&other.number))
    }
}
