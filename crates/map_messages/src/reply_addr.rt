// The ITR-RLOC of a Map-Request: an AFI and an address.
ghost use Rattle.std.specs.Prelude.{◌≡◌, ◌<◌, ◌^◌, ◌++◌, OnOk, Some};
ghost use Rattle.mapping_records.specs.Address.{canonical_addr};
ghost use Rattle.mapping_records.specs.Eid.{canonical_eid};
ghost use Rattle.map_messages.specs.Request.{reply_addr_rules, reply_addr_size, IsReplyAddr};

use crate::items::Item;
use crate::{Addr, Eid, MessageFault, NoMemory, Octets, Prefix};
use mapping_records::{addr_at, addr_size, has_addr, refused, write_eid};
use octets::{Why, big_16};
use std::alloc::Global;

impl Item for Addr {
    ghost rules = { reply_addr_rules };

    ghost size = { reply_addr_size };

    ghost IsAt = { IsReplyAddr };

    ghost InRange = { λ _. Unit {0} };

    ghost canonical = { canonical_addr };

    fn read(_alloc: Global, octets: &[u8], base: u32) -> Result<(Addr, u32), MessageFault> {
        if octets.len() < 2 {
            return Err(MessageFault::Refused(refused(base, Why::Short)));
        }
        let afi = big_16(octets, 0);
        if !has_addr(afi) {
            return Err(MessageFault::Refused(refused(base, Why::Afi)));
        }
        let size = 2 + addr_size(afi);
        if octets.len() < size {
            return Err(MessageFault::Refused(refused(base + 2, Why::Short)));
        }
        Ok((addr_at(afi, octets, 2), size as u32))
    }

    fn write(&self, _alloc: Global, out: &mut Octets) -> Result<(), NoMemory> {
        write_host(0, *self, out)
    }
}

/// Appends an address of an instance, from its AFI on. Without memory a part of it stays.
pub(crate) fn write_host(iid: u32, addr: Addr, out: &mut Octets) -> Result<(), NoMemory>
    requires { iid < 2 ^ 24 }
    ensures { OnOk result (out.new ≡ out.old ++ canonical_eid iid (Some addr)) }
{
    let prefix = Prefix::host(addr);
    write_eid(&Eid { iid, prefix }, out)
}
