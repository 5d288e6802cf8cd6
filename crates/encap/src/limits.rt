// The size of tunnel packets.
ghost use Rattle.std.specs.Prelude.{◌≡◌};
ghost use Rattle.encap.specs.Limits.{most_tunnel_octets};
ghost use Rattle.encap.specs.declared.limits.TheConstants.{MOST_TUNNEL_OCTETS};

/// The most octets of a tunnel packet with its outer headers.
pub const MOST_TUNNEL_OCTETS: usize = 1500;

/// Law: the constant is the defined number.
pub fn limits_are()
    ensures { MOST_TUNNEL_OCTETS ≡ most_tunnel_octets }
{}
