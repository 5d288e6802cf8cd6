// The differences of two texts.
ghost use Rattle.std.specs.Prelude.{◌≡◌, ◌↔◌, IfOk, IsNone};

use anyhow::Result;
use std::alloc::Global;

/// The first line in which two texts differ, as wanted and as got; None exactly where the texts are
/// the same.
pub fn difference(alloc: Global, place: &str, wanted: &str, got: &str) -> Result<Option<String>>
    ensures same { IfOk result (λ found. IsNone found ↔ (wanted.now ≡ got.now)) }
{
    if wanted == got {
        return Ok(None);
    }
    let (number, wanted, got) = first_difference(wanted, got);
    let text = format!(in alloc;
        "  {place}, line {number}\n    wanted {wanted}\n    got    {got}\n"
    )?;
    Ok(Some(text))
}

// The number of the first line in which two texts differ, and both lines.
fn first_difference<'a>(wanted: &'a str, got: &'a str) -> (u32, &'a str, &'a str) {
    let mut wanted = wanted.lines();
    let mut got = got.lines();
    for number in 1..u32::MAX {
        match (wanted.next(), got.next()) {
            (None, None) => break,
            (wanted, got) => {
                if wanted != got {
                    return (
                        number,
                        wanted.unwrap_or("nothing"),
                        got.unwrap_or("nothing"),
                    );
                }
            }
        }
    }
    (0, "other ends of lines", "these lines")
}
