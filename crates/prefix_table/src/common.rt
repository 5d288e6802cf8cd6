// The longest prefix that covers two others.
ghost use Rattle.std.specs.Prelude.{◌≡◌, ◌≤◌, false};
ghost use Rattle.mapping_records.specs.Eids.{covers_eid};
ghost use Rattle.prefix_table.specs.Keys.{key_bits, key_len, key_width};
ghost use Rattle.prefix_table.specs.Common.{IsCommon};

use crate::search::next_bit;
use mapping_records::{Eid, Prefix};

/// The longest EID that covers both of two EIDs that don't cover each other, and whose first
/// `least` bits are the same.
pub(crate) fn common(key: Eid, eid: Eid, least: u8) -> Eid
    requires same_iid { key.iid ≡ eid.iid }
    requires same_width { key_width key ≡ key_width eid }
    requires in_key { least ≤ key_len key }
    requires in_eid { least ≤ key_len eid }
    requires front { key_bits key least ≡ key_bits eid least }
    requires not_below { covers_eid key eid ≡ false }
    requires not_above { covers_eid eid key ≡ false }
    ensures { IsCommon result key eid least }
{
    let mut len = least;
    while next_bit(key.prefix.addr, len) == next_bit(eid.prefix.addr, len) {
        len += 1;
    }
    Eid {
        iid: eid.iid,
        prefix: Prefix::new(eid.prefix.addr, len).unwrap(),
    }
}
