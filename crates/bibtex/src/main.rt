//! The command `bibtex`: runs a job of a folder.
#![tactic(auto)]

use btx_command::{History, RealSystem, SystemOutputs, run_command_line};
use std::process::ExitCode;
use std::rt::Files;
use std::{env, fs};

// Opens the null device as often as there are standard streams, so that no file of the job takes the place of one that is closed.
fn hold_places<R: Files>(rt: &R) -> [Option<R::File>; 3] {
    let hold = || fs::open(rt, "/dev/null").ok();
    [hold(), hold(), hold()]
}

fn main(rt: HostRuntime) -> ExitCode {
    let _places = hold_places(&rt);
    let mut history = History::new(rt.alloc());
    let mut outputs = SystemOutputs::new(&rt);
    let (_system, code) = run_command_line(
        rt.alloc(),
        RealSystem::new(&rt),
        &mut history,
        &mut outputs,
        env::args(&rt),
    );
    code
}
