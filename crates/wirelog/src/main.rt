// The program `wirelog LENGTH < SCENARIO`: the records that a log of so many bytes holds at the scenario's end, a line each.
#![tactic(auto)]

use desk::arguments::Word;
use desk::{arguments, failure};
use std::process::ExitCode;

fn main(rt: HostRuntime) -> ExitCode {
    if arguments::count(&rt) != 2 {
        logdesk::usage(&rt.stderr());
        return ExitCode::SUCCESS;
    }
    let length = Word::get(&rt, 1);
    let done = logdesk::play_as(
        &rt.stderr(),
        length.given(),
        &mut rt.stdin(),
        &mut rt.stdout(),
    );
    failure::status(&rt.stderr(), done)
}
