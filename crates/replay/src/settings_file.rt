// The settings file, read in pieces.
ghost use Rattle.std.specs.Prelude.{◌≡◌, length, IfOk, IfSome, IsErrOf};
ghost use Rattle.desk.specs.declared.fault.DeskFault.TheVariants.{Failed};
ghost use Rattle.desk.specs.Causes.{HasCause, StaysSteady};
ghost use Rattle.desk.specs.World.{content, left_of, to_read, shown, IsGiven, IsThere};
ghost use Rattle.lisp_settings.specs.Lawful.{IsLawful};
ghost use Rattle.lisp_settings.specs.Settings.{settings_of};
ghost use Rattle.replay.specs.Readings.{ReadsAs};

use desk::{Desk, DeskFault, FileId, read_full};
use lisp_settings::{MOST_TEXT_OCTETS, Settings, SettingsFault, read_settings};
use octets::Octets;
use std::alloc::{AllocError, Global};

// The octets of a piece, which are read at once.
const PIECE: usize = 65_536;

/// The settings in the file of that name, or their first fault.
pub(crate) fn load_settings<D: Desk>(
    alloc: Global,
    desk: &mut D,
    name: &str,
) -> Result<Result<Settings, SettingsFault>, DeskFault>
    ensures value { IfOk result (λ settings. IfSome (D.told desk.old) (λ w. settings
        ≡ settings_of (content name.now w.files))) }
    ensures lawful { IfOk result (λ settings. IfOk settings IsLawful) }
    ensures shown { shown (D.told desk.new) ≡ shown (D.told desk.old) }
    ensures cause { HasCause (D.faults desk.old) (D.faults desk.new) result }
    ensures steady { StaysSteady (D.steady desk.old) (D.steady desk.new)
        (IsThere name.now (D.told desk.old)) (IsErrOf result Failed) }
{
    let text = read_text(alloc, desk, name)?;
    match read_settings(alloc, text.as_slice()) {
        Ok(settings) => Ok(Ok(settings)),
        Err(fault) => match fault {
            SettingsFault::Memory => Err(DeskFault::Memory),
            own => Ok(Err(own)),
        },
    }
}

// The text of a settings file; of a file that is too long only a beginning, which is itself too
// long for settings.
fn read_text<D: Desk>(alloc: Global, desk: &mut D, name: &str) -> Result<Octets, DeskFault>
    ensures text { IfOk result (λ text. IfSome (D.told desk.old) (λ w.
        ReadsAs text (content name.now w.files))) }
    ensures shown { shown (D.told desk.new) ≡ shown (D.told desk.old) }
    ensures cause { HasCause (D.faults desk.old) (D.faults desk.new) result }
    ensures steady { StaysSteady (D.steady desk.old) (D.steady desk.new)
        (IsThere name.now (D.told desk.old)) (IsErrOf result Failed) }
{
    let id = desk.open_file(alloc, name)?;
    read_pieces(alloc, desk, id)
}

fn read_pieces<D: Desk>(alloc: Global, desk: &mut D, id: FileId) -> Result<Octets, DeskFault>
    ensures text { IfOk result (λ text. IfSome (D.told desk.old) (λ w.
        ReadsAs text (left_of id.number w))) }
    ensures shown { shown (D.told desk.new) ≡ shown (D.told desk.old) }
    ensures cause { HasCause (D.faults desk.old) (D.faults desk.new) result }
    ensures steady { StaysSteady (D.steady desk.old) (D.steady desk.new)
        (IsGiven id.number to_read (D.given desk.old)) (IsErrOf result Failed) }
{
    let mut piece = zeroed(alloc, PIECE)?;
    let mut text = Octets::new(alloc);
    loop {
        let n = read_full(alloc, desk, id, &mut piece)?;
        text.append(&piece[..n])?;
        if n < PIECE || text.len() > MOST_TEXT_OCTETS {
            return Ok(text);
        }
    }
}

fn zeroed(alloc: Global, n: usize) -> Result<Vec<u8>, AllocError>
    ensures { IfOk result (λ octets. length octets.items ≡ n) }
{
    vec![in alloc; 0u8; n]
}
