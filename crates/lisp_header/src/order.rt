// Map-Versions, RFC 9302: numbers of 12 bits in a circle.
ghost use Rattle.std.specs.Prelude.{◌≡◌, ◌≤◌};
ghost use Rattle.lisp_header.specs.Versions.{newer, successor};

/// Whether Map-Version `a` is newer than `b`: ahead of it in the circle, by half of it at most.
pub fn newer(a: u16, b: u16) -> bool
    ensures { result ≡ newer a b }
{
    if a > b { a - b <= 2048 } else { b - a > 2048 }
}

/// The Map-Version after this one: 1 after 4,095, because 0 means that there is no version.
pub fn successor(a: u16) -> u16
    requires { a ≤ 4095 }
    ensures { result ≡ successor a }
{
    if a == 4095 { 1 } else { a + 1 }
}
