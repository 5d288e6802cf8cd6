// The EID record of a Map-Request: an EID that is asked for.
ghost use Rattle.map_messages.specs.Request.{asked_eid_rules, asked_eid_size, canonical_asked_eid, IsAskedEid};

use crate::items::Item;
use crate::{Eid, MessageFault, NoMemory, Octets};
use mapping_records::{read_eid_prefix, refused, write_eid};
use octets::Why;
use std::alloc::Global;

impl Item for Eid {
    ghost rules = { asked_eid_rules };

    ghost size = { asked_eid_size };

    ghost IsAt = { IsAskedEid };

    ghost InRange = { λ _. Unit {0} };

    ghost canonical = { canonical_asked_eid };

    fn read(_alloc: Global, octets: &[u8], base: u32) -> Result<(Eid, u32), MessageFault> {
        if octets.len() < 2 {
            return Err(MessageFault::Refused(refused(base, Why::Short)));
        }
        let (_, rest) = octets.split_at(2);
        let (eid, size) = read_eid_prefix(rest, base + 2, octets[1], base + 1)?;
        Ok((eid, 2 + size))
    }

    fn write(&self, _alloc: Global, out: &mut Octets) -> Result<(), NoMemory> {
        out.append(&[0, self.prefix.len])?;
        write_eid(self, out)
    }
}
