// Writing of EIDs.
ghost use Rattle.std.specs.Prelude.{◌≡◌, ◌++◌, ◌∷◌, [], OnOk, OnErr, Some};
ghost use Rattle.octets.specs.Numbers.{big_octets};
ghost use Rattle.ip_headers.specs.declared.addr.Addr.TheVariants.{V4, V6};
ghost use Rattle.mapping_records.specs.Eid.{canonical_eid};

use crate::Eid;
use ip_headers::Addr;
use octets::{NoMemory, Octets};

/// Appends an EID from its AFI on, as an LCAF exactly where its instance isn't 0. Its mask length
/// isn't written.
pub fn write_eid(eid: &Eid, out: &mut Octets) -> Result<(), NoMemory>
    ensures ok { OnOk result (out.new ≡ out.old ++ canonical_eid eid.now.iid (Some eid.now.prefix.addr)) }
    ensures err { OnErr result (out.new ≡ out.old) }
{
    match eid.prefix.addr {
        Addr::V4(n) => write_v4(eid.iid, n, out),
        Addr::V6(n) => write_v6(eid.iid, n, out),
    }
}

fn write_v4(iid: u32, addr: u32, out: &mut Octets) -> Result<(), NoMemory>
    ensures ok { OnOk result (out.new ≡ out.old ++ canonical_eid iid (Some (V4 addr))) }
    ensures err { OnErr result (out.new ≡ out.old) }
{
    let octets = addr.to_be_bytes();
    if iid == 0 {
        out.append_both(&[0, 1], &octets)
    } else {
        out.append_both(&lcaf(iid, 10, 1), &octets)
    }
}

fn write_v6(iid: u32, addr: u128, out: &mut Octets) -> Result<(), NoMemory>
    ensures ok { OnOk result (out.new ≡ out.old ++ canonical_eid iid (Some (V6 addr))) }
    ensures err { OnErr result (out.new ≡ out.old) }
{
    let octets = addr.to_be_bytes();
    if iid == 0 {
        out.append_both(&[0, 2], &octets)
    } else {
        out.append_both(&lcaf(iid, 22, 2), &octets)
    }
}

// An LCAF up to its address. The length counts the octets from the instance on.
fn lcaf(iid: u32, length: u8, afi: u8) -> [u8; 14]
    ensures { result ≡ 64 ∷ 3 ∷ 0 ∷ 0 ∷ 2 ∷ 0 ∷ 0 ∷ length ∷ (big_octets 4 iid ++ (0 ∷ afi ∷ [])) }
{
    let [a, b, c, d] = iid.to_be_bytes();
    [0x40, 3, 0, 0, 2, 0, 0, length, a, b, c, d, 0, afi]
}
