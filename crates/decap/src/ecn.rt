// Explicit congestion notification behind a tunnel, RFC 6040 section 4.2.
ghost use Rattle.std.specs.Prelude.{◌≡◌, ◌<◌, IfSome};
ghost use Rattle.decap.specs.Ecn.{ecn_of};

const NOT_ECT: u8 = 0;

const ECT_1: u8 = 1;

const ECT_0: u8 = 2;

const CE: u8 = 3;

/// The ECN mark with which a packet goes on, by its own and that of the outer header. None where it
/// is dropped: congestion was marked, and the packet's ends don't use ECN.
#[tactic(auto, unfolding(crate::specs::Ecn::ecn_of))]
pub(crate) fn ecn_of(inner: u8, outer: u8) -> Option<u8>
    requires inner { inner < 4 }
    requires outer { outer < 4 }
    ensures value { result ≡ ecn_of inner outer }
    ensures range { IfSome result (λ ecn. ecn < 4) }
{
    match (inner, outer) {
        (NOT_ECT, CE) => None,
        (_, CE) => Some(CE),
        (ECT_0, ECT_1) => Some(ECT_1),
        _ => Some(inner),
    }
}
