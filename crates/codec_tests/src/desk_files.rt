// Desks in memory: one whose calls fail where that is stated, and one on which none fails.
use desk::{Calls, Desk, DeskFault, FileId, Files, MemoryDesk, NamedFile, SteadyDesk};
use octets::{NoMemory, Octets};
use std::alloc::Global;
use std::process::Abort;
use std::test::Fail;

fn one_file(alloc: Global) -> Result<Files, NoMemory> {
    let mut files = Files::new(alloc);
    files.push(NamedFile {
        name: Octets::copied(alloc, b"in")?,
        octets: Octets::copied(alloc, b"abc")?,
    })?;
    Ok(files)
}

#[test]
fn what_was_written_is_in_the_file(rt: HostRuntime) -> Result<(), Fail> {
    let mut desk = MemoryDesk::new(rt.alloc(), one_file(rt.alloc())?, Calls::new(rt.alloc()));
    assert_eq!(rt; copy_two_octets(rt.alloc(), &mut desk)?, 2);
    assert_copied(&rt, &desk);
    Ok(())
}

fn copy_two_octets(alloc: Global, desk: &mut MemoryDesk) -> Result<usize, DeskFault> {
    let input = desk.open_file(alloc, "in")?;
    let output = desk.make_file(alloc, "out")?;
    let mut buf = [0u8; 2];
    let n = desk.read_file(alloc, input, &mut buf)?;
    desk.write_file(alloc, output, &buf)?;
    desk.say(alloc, b"done")?;
    Ok(n)
}

fn assert_copied(rt: &impl Abort, desk: &MemoryDesk) {
    assert_eq!(rt; desk.file("out"), Some(b"ab".as_slice()));
    assert_eq!(rt; desk.file("in"), Some(b"abc".as_slice()));
    assert_eq!(rt; desk.said(), b"done".as_slice());
}

#[test]
fn a_call_that_is_to_fail_says_half_of_its_piece(rt: HostRuntime) -> Result<(), Fail> {
    let mut calls = Calls::new(rt.alloc());
    calls.push(2)?;
    let mut desk = MemoryDesk::new(rt.alloc(), Files::new(rt.alloc()), calls);
    fails_at_its_second_call(&rt, rt.alloc(), &mut desk)?;
    Ok(())
}

fn fails_at_its_second_call(
    rt: &impl Abort,
    alloc: Global,
    desk: &mut MemoryDesk,
) -> Result<(), DeskFault> {
    desk.say(alloc, b"one")?;
    assert_eq!(rt; desk.say(alloc, b"two"), Err(DeskFault::Failed));
    desk.say(alloc, b"three")?;
    assert_eq!(rt; desk.said(), b"onetthree".as_slice());
    assert_eq!(rt; desk.open_file(alloc, "in"), Err(DeskFault::Failed));
    Ok(())
}

#[test]
fn on_a_steady_desk_what_is_not_there_reads_as_empty(rt: HostRuntime) -> Result<(), Fail> {
    let mut desk = SteadyDesk::new(rt.alloc(), one_file(rt.alloc())?);
    reads_what_is_there(&rt, rt.alloc(), &mut desk)?;
    Ok(())
}

fn reads_what_is_there(
    rt: &impl Abort,
    alloc: Global,
    desk: &mut SteadyDesk,
) -> Result<(), DeskFault> {
    let input = desk.open_file(alloc, "in")?;
    let absent = desk.open_file(alloc, "elsewhere")?;
    let output = desk.make_file(alloc, "out")?;
    desk.write_file(alloc, output, b"ab")?;
    let mut buf = [0u8; 2];
    // The ids in order, and the octets that are read of each.
    let rows: [(FileId, &[u8]); 6] = [
        (input, b"ab"),
        (absent, b""),
        (output, b""),
        (FileId { number: 9 }, b""),
        (input, b"c"),
        (input, b""),
    ];
    for (id, octets) in rows {
        let n = desk.read_file(alloc, id, &mut buf)?;
        assert_eq!(rt; &buf[..n], octets, "{id:?}");
    }
    Ok(())
}

#[test]
fn a_steady_desk_tells_what_was_made_and_said(rt: HostRuntime) -> Result<(), Fail> {
    let mut desk = SteadyDesk::new(rt.alloc(), one_file(rt.alloc())?);
    write_and_say(rt.alloc(), &mut desk)?;
    assert_told(&rt, &desk);
    desk.make_file(rt.alloc(), "in")?;
    assert_eq!(rt; desk.file("in"), Some(b"".as_slice()));
    Ok(())
}

fn write_and_say(alloc: Global, desk: &mut SteadyDesk) -> Result<(), DeskFault> {
    let input = desk.open_file(alloc, "in")?;
    let first = desk.make_file(alloc, "out")?;
    let other = desk.make_file(alloc, "other")?;
    // A write to an id that is open for reading, or was never given, changes no file.
    for (id, piece) in [
        (first, "one"),
        (input, "two"),
        (FileId { number: 9 }, "three"),
        (other, "four"),
        (first, "five"),
    ] {
        desk.write_file(alloc, id, piece.as_bytes())?;
        desk.say(alloc, piece.as_bytes())?;
    }
    Ok(())
}

fn assert_told(rt: &impl Abort, desk: &SteadyDesk) {
    assert_eq!(rt; desk.said(), b"onetwothreefourfive".as_slice());
    assert_eq!(rt; desk.file("out"), Some(b"onefive".as_slice()));
    assert_eq!(rt; desk.file("other"), Some(b"four".as_slice()));
    assert_eq!(rt; desk.file("in"), Some(b"abc".as_slice()));
    assert_eq!(rt; desk.file("elsewhere"), None);
}
