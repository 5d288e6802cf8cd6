// The output file, made with its header.
ghost use Rattle.std.specs.Prelude.{◌≡◌, ◌++◌, ◌∷◌, [], option_map, None, IfOk, IfSome, IsErrOf, OnErr};
ghost use Rattle.desk.specs.declared.fault.DeskFault.TheVariants.{Failed};
ghost use Rattle.desk.specs.Causes.{HasCause, StaysSteady};
ghost use Rattle.desk.specs.World.{found_at, after_make, after_write, to_write};
ghost use Rattle.capture_io.specs.Output.{out_header};
ghost use Rattle.replay.specs.Front.{MakesPart};

use capture_io::write_header;
use desk::{Desk, DeskFault, FileId};
use octets::{NoMemory, Octets};
use std::alloc::Global;

/// Makes the output file, and writes a capture's header into it. Returns the file's id.
pub(crate) fn make_output<D: Desk>(
    alloc: Global,
    desk: &mut D,
    name: &str,
) -> Result<FileId, DeskFault>
    ensures told { IfOk result (λ id. D.told desk.new ≡ option_map (λ w.
        after_write id.number out_header (after_make id.number name.now w)) (D.told desk.old)) }
    ensures part { OnErr result (MakesPart name.now (D.told desk.old) (D.told desk.new)) }
    ensures fresh { IfOk result (λ id. IfSome (D.told desk.old) (λ w.
        found_at id.number w.writers ≡ None)) }
    ensures given { IfOk result (λ id. D.given desk.new ≡ D.given desk.old
        ++ (id.number, to_write) ∷ []) }
    ensures given_fresh { IfOk result (λ id. found_at id.number (D.given desk.old) ≡ None) }
    ensures cause { HasCause (D.faults desk.old) (D.faults desk.new) result }
    ensures steady { StaysSteady (D.steady desk.old) (D.steady desk.new)
        Unit (IsErrOf result Failed) }
{
    let header = capture_header(alloc)?;
    let id = desk.make_file(alloc, name)?;
    desk.write_file(alloc, id, header.as_slice())?;
    Ok(id)
}

fn capture_header(alloc: Global) -> Result<Octets, NoMemory>
    ensures { IfOk result (λ header. header ≡ out_header) }
{
    let mut header = Octets::new(alloc);
    write_header(&mut header)?;
    Ok(header)
}
