// The program `counts [QQ ZZ] < SCENARIO`: how many transfers of each pair, or of one, were taken and failed.
#![tactic(auto)]

use desk::arguments::Word;
use desk::{Failure, arguments, failure};
use std::process::ExitCode;
use tally::ask::Question;

fn main(rt: HostRuntime) -> ExitCode {
    let done = match arguments::count(&rt) {
        1 => countdesk::play(
            &rt.stderr(),
            Some(Question::All),
            &mut rt.stdin(),
            &mut rt.stdout(),
        ),
        3 => count_pair(rt),
        _ => {
            countdesk::usage(&rt.stderr());
            Ok(())
        }
    };
    failure::status(&rt.stderr(), done)
}

fn count_pair(rt: HostRuntime) -> Result<(), Failure> {
    let source = Word::get(&rt, 1);
    let destination = Word::get(&rt, 2);
    countdesk::play_as(
        &rt.stderr(),
        source.given(),
        destination.given(),
        &mut rt.stdin(),
        &mut rt.stdout(),
    )
}
