// Stored inputs: a title for each, and the file that an argument names.
ghost use Rattle.std.specs.Prelude.{IfErr};
ghost use Rattle.desk.specs.Playing.{IsOfInput, IsOfOutput};

use crate::arguments;
use crate::arguments::Word;
use crate::failure::Failure;
use std::io::Write;
use std::process::ExitCode;
use std::rt::Files;
use std::{fs, io};

// `==` and the words, in a line of their own.
pub fn title<W: Write>(to: &mut W, words: &[&[u8]]) -> Result<(), Failure>
    ensures { IfErr result IsOfOutput }
{
    title_line(to, words).map_err(Failure::Output)
}

fn title_line<W: Write>(to: &mut W, words: &[&[u8]]) -> io::Result<()> {
    to.write_all(b"==")?;
    for word in words {
        to.write_all(b" ")?;
        to.write_all(word)?;
    }
    to.write_all(b"\n")
}

// The file at a path, for reading. A path that is no text names none.
pub fn open<F: Files>(files: &F, path: &[u8]) -> Result<F::File, Failure>
    ensures { IfErr result IsOfInput }
{
    let text = str::from_utf8(path).map_err(|_| Failure::Input(io::Error::from(
        io::ErrorKind::InvalidFilename,
    )))?;
    fs::open(files, text).map_err(Failure::Input)
}

// Reports a failure, and answers whether more is to be tried: not where the output cannot be written.
fn goes_on(
    rt: &HostRuntime,
    path: &[u8],
    done: Result<(), Failure>,
    status: &mut ExitCode,
) -> bool {
    let Err(failure) = done else {
        return true;
    };
    failure.report(&rt.stderr(), path);
    *status = ExitCode::FAILURE;
    !failure.is_of_output()
}

// Runs each argument, which is a path, and answers how the program ends. An input that cannot be read is reported and passed over;
// where the output cannot be written, nothing more is tried.
pub fn each<F: Fn(&[u8]) -> Result<(), Failure>>(rt: HostRuntime, run: F) -> ExitCode
where
    F: Drop,
    requires { F.IsAlwaysCallable run }
{
    let mut status = ExitCode::SUCCESS;
    // By number, as the runtime gives arguments.
    for i in 1..arguments::count(&rt) {
        let path = Word::get(&rt, i);
        if !goes_on(&rt, path.given(), run(path.given()), &mut status) {
            break;
        }
    }
    status
}

// The same with arguments that are alternately a word and a path; a function of its own, since its closure takes two. Behind a last word alone the path is empty, and names no file.
pub fn each_pair<F: Fn(&[u8], &[u8]) -> Result<(), Failure>>(rt: HostRuntime, run: F) -> ExitCode
where
    F: Drop,
    requires { F.IsAlwaysCallable run }
{
    let mut status = ExitCode::SUCCESS;
    // By number, as the runtime gives arguments.
    for i in 0..arguments::count(&rt) / 2 {
        let word = Word::get(&rt, 2 * i + 1);
        let path = Word::get(&rt, 2 * i + 2);
        if !goes_on(
            &rt,
            path.given(),
            run(word.given(), path.given()),
            &mut status,
        ) {
            break;
        }
    }
    status
}
