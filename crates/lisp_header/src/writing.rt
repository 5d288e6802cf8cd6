// Writing of the LISP data header.
ghost use Rattle.std.specs.Prelude.{◌≡◌, ◌<◌, ◌^◌, ◌+◌, ◌*◌};
ghost use Rattle.lisp_header.specs.Header.{canonical, flags_of, instance_and_status, nonce_or_versions, InRange};

use crate::LispHeader;
use crate::flags::{ECHO, INSTANCE, NONCE, STATUS, VERSIONS, flag};

/// The header's eight octets. R and each field that doesn't count are 0.
pub fn write_header(header: &LispHeader) -> [u8; 8]
    requires { InRange header.now }
    ensures { result ≡ canonical header.now }
{
    let [_, a, b, c] = nonce_or_versions(header).to_be_bytes();
    let [d, e, f, g] = instance_and_status(header).to_be_bytes();
    [flags_of(header), a, b, c, d, e, f, g]
}

fn flags_of(header: &LispHeader) -> u8
    requires { InRange header.now }
    ensures { result ≡ flags_of header.now }
{
    flag(header.nonce.is_some(), NONCE)
        + flag(header.status.is_some(), STATUS)
        + flag(header.echo, ECHO)
        + flag(header.versions.is_some(), VERSIONS)
        + flag(header.instance.is_some(), INSTANCE)
        + header.key
}

fn nonce_or_versions(header: &LispHeader) -> u32
    requires { InRange header.now }
    ensures { result ≡ nonce_or_versions header.now.nonce header.now.versions }
{
    match (header.nonce, header.versions) {
        (Some(nonce), _) => nonce,
        (None, Some((source, dest))) => u32::from(source) * 4096 + u32::from(dest),
        (None, None) => 0,
    }
}

fn instance_and_status(header: &LispHeader) -> u32
    requires { InRange header.now }
    ensures { result ≡ instance_and_status header.now.instance header.now.status }
{
    let status = header.status.unwrap_or(0);
    match header.instance {
        Some(instance) => instance * 256 + status,
        None => status,
    }
}
