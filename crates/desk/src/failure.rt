// What ends a run before its end: its input cannot be read, or its output cannot be written.
ghost use Rattle.std.specs.Prelude.{◌≡◌};
ghost use Rattle.desk.specs.Playing.{is_of_output};

use std::io;
use std::process::ExitCode;

#[derive(Clone, Copy)]
pub enum Failure {
    Input(io::Error),
    Output(io::Error),
}

impl Failure {
    // After it nothing more can be written.
    pub fn is_of_output(self) -> bool
        ensures { result ≡ is_of_output self }
    {
        matches!(self, Failure::Output(_))
    }

    // One line, for standard error: what failed and why. `name` is what it calls the input.
    pub fn report(self, errors: &impl Print, name: &[u8]) {
        match self {
            Failure::Input(error) => say(errors, name, error),
            Failure::Output(error) => say(errors, b"standard output", error),
        }
    }
}

// If standard error cannot be written either, nobody is told.
fn say(errors: &impl Print, what: &[u8], error: io::Error) {
    let _ = errors.write_all(what);
    let _ = println!(errors; ": {error}");
}

// How a program ends that reads standard input: a failure is reported, and is its exit status.
pub fn status(errors: &impl Print, done: Result<(), Failure>) -> ExitCode {
    match done {
        Ok(()) => ExitCode::SUCCESS,
        Err(failure) => {
            failure.report(errors, b"standard input");
            ExitCode::FAILURE
        }
    }
}
