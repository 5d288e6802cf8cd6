// The place where octets differ.
ghost use Rattle.std.specs.Prelude.{◌≡◌, ◌≤◌, length};
ghost use Rattle.audit.specs.Compared.{first_difference};

/// The first offset at which two runs of octets differ, or the length of the shorter one.
pub(crate) fn first_difference(due: &[u8], sent: &[u8]) -> usize
    ensures place { result ≡ first_difference due.now sent.now }
    ensures within { result ≤ length sent.now }
{
    let mut place = 0;
    while place < due.len() && place < sent.len() && due[place] == sent[place] {
        place += 1;
    }
    place
}
