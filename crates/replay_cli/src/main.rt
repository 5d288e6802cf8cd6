//! The program `lispr`: its words, handed to a run over the host's files and standard output.
#![tactic(auto)]

use desk::HostDesk;
use replay::{OpenGate, Status, Word, run};
use std::env;
use std::io::ErrorKind;
use std::process::ExitCode;
use std::sync::Wait;
use std::thread::Threads;

// The runtime may start threads and wait only in `main`, which hands it on a second time as one
// that may.
fn answer<R: Threads + Wait + Sync>(host: &HostRuntime, rt: &R) -> Status {
    let Some(words) = words(host) else {
        return Status::Memory;
    };
    let mut desk = HostDesk::new(host, host.alloc());
    run(rt, host.alloc(), &words, &mut desk, &OpenGate)
}

// The words after the program's name, or None where memory is refused. Where one is no text, an
// empty list is handed on, which is of no form.
fn words(rt: &HostRuntime) -> Option<Vec<Word>> {
    match env::args(rt) {
        Ok(words) => words.skip(1).collect(rt.alloc()).ok(),
        Err(error) if error.kind() == ErrorKind::OutOfMemory => None,
        Err(_) => Some(Vec::new(rt.alloc())),
    }
}

fn main(rt: HostRuntime) -> ExitCode {
    ExitCode::from(answer(&rt, &rt) as u8)
}
