// EIDs of one address.
ghost use Rattle.std.specs.Prelude.{◌≡◌, ◌<◌, ◌^◌, Some};
ghost use Rattle.ip_headers.specs.Addr.{width};
ghost use Rattle.router_model.specs.Hosts.{host_eid};

use ip_headers::Addr;
use mapping_records::{Eid, Prefix};

/// The EID of a single address in an instance.
pub(crate) fn host_eid(iid: u32, addr: Addr) -> Eid
    requires { iid < 2 ^ 24 }
    ensures host { host_eid iid addr ≡ Some result }
    ensures iid { result.iid ≡ iid }
    ensures addr { result.prefix.addr ≡ addr }
    ensures len { result.prefix.len ≡ width addr }
{
    Eid {
        iid,
        prefix: Prefix::host(addr),
    }
}
