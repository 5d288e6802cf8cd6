// A desk over the host's files and standard output. It is opaque: contracts don't see the octets.
ghost use Rattle.std.specs.Prelude.{◌≡◌, ◌≤◌, ◌++◌, ◌∷◌, [], length, false, None, IfOk, IfSome, OnErr};
ghost use Rattle.desk.specs.declared.fault.DeskFault.TheVariants.{Failed};
ghost use Rattle.octets.specs.Causes.{Rose};
ghost use Rattle.desk.specs.Causes.{HasCause};
ghost use Rattle.desk.specs.Host.{given_by_host, host_direction};
ghost use Rattle.desk.specs.World.{IsFresh};

use crate::{Desk, DeskFault, FileId};
use std::alloc::Global;
use std::fs;
use std::io::{BufReader, ErrorKind, Read, Write};
use std::rt::Files;

// The size of the buffer through which a file is read, in octets.
const BUFFER: usize = 65_536;

/// A file that the host opened: to read, or to write.
#[derive(Drop)]
pub enum HostFile<I, O> {
    Input(I),
    Output(O),
}

/// The trusted edge: a desk over std's files, read through a buffer of 65,536 octets, and standard
/// output. It is opaque and never steady.
#[derive(Drop)]
pub struct HostDesk<'r, R: Files + Print> {
    rt: &'r R,
    files: Vec<HostFile<BufReader<R::File>, R::File>>,
    faults: u64,
}

impl<'r, R: Files + Print> HostDesk<'r, R> {
    /// A desk that has opened no file yet.
    pub fn new(rt: &'r R, alloc: Global) -> HostDesk<'r, R>
        ensures given { result.files.items ≡ [] }
        ensures faults { result.faults ≡ 0 }
    {
        HostDesk {
            rt,
            files: Vec::new(alloc),
            faults: 0,
        }
    }

    fn fault(&mut self) -> DeskFault
        ensures fault { result ≡ Failed }
        ensures rose { Rose self.old.faults self.new.faults }
        ensures later { self.old.faults ≤ self.new.faults }
        ensures same { self.new.files.items ≡ self.old.files.items }
    {
        self.faults = self.faults.saturating_add(1);
        DeskFault::Failed
    }

    // Keeps an opened file, and returns its id. Where no number is left for an id, the fault is
    // `Memory`.
    #[tactic(auto, using(crate::proofs::HostLemmas::on_host_give))]
    fn give(&mut self, file: HostFile<BufReader<R::File>, R::File>) -> Result<FileId, DeskFault>
        ensures given { IfOk result (λ id. given_by_host 0 self.new.files.items
            ≡ given_by_host 0 self.old.files.items ++ (id.number, host_direction file) ∷ []) }
        ensures fresh { IfOk result (λ id.
            IsFresh id.number (given_by_host 0 self.old.files.items) None) }
        ensures err { OnErr result (self.new.files.items ≡ self.old.files.items) }
        ensures cause { HasCause self.old.faults self.new.faults result }
    {
        match u32::try_from(self.files.len()) {
            Ok(number) => {
                self.files.push(file)?;
                Ok(FileId { number })
            }
            Err(_) => Err(DeskFault::Memory),
        }
    }
}

impl<'r, R: Files + Print> Desk for HostDesk<'r, R> {
    ghost given = { λ desk. given_by_host 0 desk.files.items };

    ghost told = { λ desk. None };

    ghost faults = { λ desk. desk.faults };

    ghost steady = { λ desk. false };

    fn open_file(&mut self, alloc: Global, name: &str) -> Result<FileId, DeskFault> {
        match fs::open(self.rt, name) {
            Ok(file) => match BufReader::with_capacity(alloc, BUFFER, file) {
                Ok(input) => self.give(HostFile::Input(input)),
                Err(_) => Err(DeskFault::Memory),
            },
            Err(_) => Err(self.fault()),
        }
    }

    fn make_file(&mut self, _alloc: Global, name: &str) -> Result<FileId, DeskFault> {
        match fs::create(self.rt, name) {
            Ok(file) => self.give(HostFile::Output(file)),
            Err(_) => Err(self.fault()),
        }
    }

    fn read_file(
        &mut self,
        _alloc: Global,
        id: FileId,
        buf: &mut [u8],
    ) -> Result<usize, DeskFault> {
        match read_host(&mut self.files, id.number as usize, buf) {
            Some(n) => Ok(n),
            None => Err(self.fault()),
        }
    }

    fn write_file(&mut self, _alloc: Global, id: FileId, piece: &[u8]) -> Result<(), DeskFault> {
        if write_host(&mut self.files, id.number as usize, piece) {
            Ok(())
        } else {
            Err(self.fault())
        }
    }

    fn say(&mut self, _alloc: Global, piece: &[u8]) -> Result<(), DeskFault> {
        match self.rt.write_all(piece) {
            Ok(()) => Ok(()),
            Err(_) => Err(self.fault()),
        }
    }
}

impl<I: Read, O> HostFile<I, O> {
    fn read(&mut self, buf: &mut [u8]) -> Option<usize>
        ensures bound { IfSome result (λ n. n ≤ length buf.new) }
        ensures kind { host_direction self.new ≡ host_direction self.old }
    {
        match self {
            HostFile::Input(file) => read_some(file, buf),
            HostFile::Output(_) => None,
        }
    }
}

impl<I, O: Write> HostFile<I, O> {
    // Writes a whole piece, and returns whether that succeeded. It fails where the file takes no
    // further octet, and on a file opened to read.
    fn write(&mut self, piece: &[u8]) -> bool
        ensures kind { host_direction self.new ≡ host_direction self.old }
    {
        match self {
            HostFile::Input(_) => false,
            HostFile::Output(file) => file.write_all(piece).is_ok(),
        }
    }
}

// Reads once, and again while the read is interrupted. None where a read fails.
fn read_some<F: Read>(file: &mut F, buf: &mut [u8]) -> Option<usize>
    ensures { IfSome result (λ n. n ≤ length buf.new) }
{
    for _ in 0..u64::MAX {
        match file.read(buf) {
            Ok(n) => return Some(n),
            Err(error) => {
                if error.kind() != ErrorKind::Interrupted {
                    return None;
                }
            }
        }
    }
    None
}

fn read_host<I: Read, O>(
    files: &mut Vec<HostFile<I, O>>,
    number: usize,
    buf: &mut [u8],
) -> Option<usize>
    ensures bound { IfSome result (λ n. n ≤ length buf.new) }
    ensures given { given_by_host 0 files.new.items ≡ given_by_host 0 files.old.items }
{
    files.get_mut(number)?.read(buf)
}

fn write_host<I, O: Write>(files: &mut Vec<HostFile<I, O>>, number: usize, piece: &[u8]) -> bool
    ensures given { given_by_host 0 files.new.items ≡ given_by_host 0 files.old.items }
{
    match files.get_mut(number) {
        Some(file) => file.write(piece),
        None => false,
    }
}
