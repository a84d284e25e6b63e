// The program `values < FIELDS`: codes read, values written and blocks of shares, a line each.
#![tactic(auto)]

use desk::{arguments, failure};
use std::process::ExitCode;

// Beside `display`: each program is a crate, which the gate runs on its own input.
fn main(rt: HostRuntime) -> ExitCode {
    if arguments::count(&rt) != 1 {
        sheetdesk::usage(&rt.stderr());
        return ExitCode::SUCCESS;
    }
    failure::status(
        &rt.stderr(),
        sheetdesk::play(&mut rt.stdin(), &mut rt.stdout()),
    )
}
