// Words of no form, over a desk with files.
use desk::{Calls, MemoryDesk};
use octets::NoMemory;
use replay::Status;
use run_rows::exchanges::TENANT;
use run_rows::packets::RAW;
use run_rows::runs::{files_of, run_words};
use std::alloc::Global;
use std::process::Abort;
use std::sync::Wait;
use std::test::Fail;
use std::thread::Threads;

// The status of a run of the words between the spaces of a text, and its desk, which has settings,
// `s`, and a capture, `i`.
fn ran<R: Threads + Wait + Sync>(
    rt: &R,
    alloc: Global,
    text: &str,
) -> Result<(Status, MemoryDesk), NoMemory> {
    let words: Vec<&str> = text.split(' ').collect(alloc)?;
    let files = files_of(alloc, &[("s", TENANT.as_bytes()), ("i", RAW.as_slice())])?;
    let mut desk = MemoryDesk::new(alloc, files, Calls::new(alloc));
    let status = run_words(rt, alloc, &words, &mut desk)?;
    Ok((status, desk))
}

fn assert_untouched(rt: &impl Abort, desk: &MemoryDesk) {
    assert_eq!(rt; desk.said(), b"usage\n".as_slice());
    assert_eq!(rt; desk.file("o"), None);
    assert_eq!(rt; desk.file("s"), Some(TENANT.as_bytes()));
    assert_eq!(rt; desk.file("i"), Some(RAW.as_slice()));
}

#[test]
fn words_of_no_form_change_no_file(rt: HostRuntime) -> Result<(), Fail> {
    for text in [
        "",
        "replay --settings s --in i --out i",
        "replay --settings s --in i --out s",
        "replay --settings s --in i --out o --out i",
        "show --in i --out s",
    ] {
        let (status, desk) = ran(&rt, rt.alloc(), text)?;
        assert_eq!(rt; status, Status::Usage, "{text}");
        assert_untouched(&rt, &desk);
    }
    Ok(())
}
