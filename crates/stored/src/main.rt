// The stored scenarios, each named and run as the bench program runs it. Its arguments are their file names.
#![tactic(auto)]

use desk::{Failure, files};
use std::process::ExitCode;

fn main(rt: HostRuntime) -> ExitCode {
    files::each(rt, |path| scenario_named(rt, path))
}

// Beside those of the other stored programs: each is a crate with files of its own.
fn scenario_named(rt: HostRuntime, path: &[u8]) -> Result<(), Failure> {
    files::title(&mut rt.stdout(), &[path])?;
    let mut file = files::open(&rt, path)?;
    desk::play(&mut file, &mut rt.stdout())
}
