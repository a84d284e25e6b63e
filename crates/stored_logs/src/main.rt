// Stored scenarios, each run as `wirelog` runs it. Its arguments are alternately a length and a file name.
#![tactic(auto)]

use desk::{Failure, files};
use std::process::ExitCode;

fn main(rt: HostRuntime) -> ExitCode {
    files::each_pair(rt, |length, path| log_named(rt, length, path))
}

// Beside those of the other stored programs: each is a crate with files of its own.
fn log_named(rt: HostRuntime, length: &[u8], path: &[u8]) -> Result<(), Failure> {
    files::title(&mut rt.stdout(), &[length, path])?;
    let mut file = files::open(&rt, path)?;
    logdesk::play_as(&rt.stderr(), length, &mut file, &mut rt.stdout())
}
