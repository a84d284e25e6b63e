// The program `display < SCENARIO`: after each field the slot number and who is next.
#![tactic(auto)]

use desk::{arguments, failure};
use std::process::ExitCode;

// Beside `values`: each program is a crate, which the gate runs on its own input.
fn main(rt: HostRuntime) -> ExitCode {
    if arguments::count(&rt) != 1 {
        screendesk::usage(&rt.stderr());
        return ExitCode::SUCCESS;
    }
    failure::status(
        &rt.stderr(),
        screendesk::play(&mut rt.stdin(), &mut rt.stdout()),
    )
}
