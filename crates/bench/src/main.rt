// The bench program: a scenario on standard input, its lines on standard output.
#![tactic(auto)]

use desk::failure;
use std::process::ExitCode;

fn main(rt: HostRuntime) -> ExitCode {
    failure::status(&rt.stderr(), desk::play(&mut rt.stdin(), &mut rt.stdout()))
}
