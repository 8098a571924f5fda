//! The whole program, with words that are read and words that are not.
use btx_command::{History, RealSystem, SystemOutputs, run_command_line};
use std::alloc::{AllocError, Global};
use std::env::Args;
use std::io;
use std::io::ErrorKind;
use std::process::ExitCode;
use std::test::Fail;

// Whether the program exits so for the system's answer when it was asked for the words.
fn exits_with(rt: &HostRuntime, args: io::Result<Args>, status: u8) -> bool {
    let mut history = History::new(rt.alloc());
    let mut outputs = SystemOutputs::new(rt);
    let system = RealSystem::new(rt);
    let (_system, code) = run_command_line(rt.alloc(), system, &mut history, &mut outputs, args);
    code == ExitCode::from(status)
}

// The program's name alone.
fn name_alone(alloc: Global) -> Result<Vec<String>, AllocError> {
    let mut words = Vec::new(alloc);
    words.push(String::from_str(alloc, "bibtex")?)?;
    Ok(words)
}

#[test]
fn exits_for_words(rt: HostRuntime) -> Result<(), Fail> {
    let words = name_alone(rt.alloc())?;
    assert!(rt; exits_with(&rt, Ok(words.into_iter()), 1));
    Ok(())
}

#[test]
fn exits_for_unread_words(rt: HostRuntime) {
    for (kind, status) in [(ErrorKind::InvalidData, 1), (ErrorKind::OutOfMemory, 5)] {
        assert!(rt; exits_with(&rt, Err(io::Error::from(kind)), status));
    }
}
