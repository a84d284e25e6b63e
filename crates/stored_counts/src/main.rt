// Stored scenarios, each counted as `counts` counts it. Its arguments are alternately a question and a file name.
#![tactic(auto)]

use desk::{Failure, files};
use std::process::ExitCode;
use tally::ask::Question;

fn main(rt: HostRuntime) -> ExitCode {
    files::each_pair(rt, |word, path| count_named(rt, word, path))
}

// Two addresses joined by a colon; any other length is `all`.
fn asked(word: &[u8]) -> Option<Question> {
    if word.len() == 5 {
        tally::ask::question_of(&word[..2], &word[3..])
    } else {
        Some(Question::All)
    }
}

// Beside those of the other stored programs: each is a crate with files of its own.
fn count_named(rt: HostRuntime, word: &[u8], path: &[u8]) -> Result<(), Failure> {
    files::title(&mut rt.stdout(), &[word, path])?;
    let mut file = files::open(&rt, path)?;
    countdesk::play(&rt.stderr(), asked(word), &mut file, &mut rt.stdout())
}
