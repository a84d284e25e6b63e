// A scenario from a reader to a writer: read, then fill, write, again until it is done.
#![tactic(auto)]

pub mod arguments;
pub mod failure;
pub mod files;
pub mod input;
#[cfg(test)]
mod tests;

ghost use Rattle.std.specs.Prelude.{◌≡◌, ◌<◌, ◌≤◌, List, ℕ, length, take, IfOk, IfErr, OnOk};
ghost use Rattle.scenario.specs.Pen.{blank};
ghost use Rattle.std.specs.Io.KnownBytes.{Appends, Consumes, IsAtEnd};
ghost use Rattle.scenario.specs.Lines.{form_text};
ghost use Rattle.scenario.specs.Output.{output};
ghost use Rattle.desk.specs.Playing.{Plays, IsOfOutput, Leaves};

pub use failure::Failure;
pub use input::{INPUT, Input};
use scenario::fill::Printing;
use scenario::pen::{Pen, ROOM};
use scenario::series::Fills;
use std::io;
use std::io::{Read, Write};
use walk::form::FormError;

// Reads until the buffer is full or the input ends, and answers how many bytes it read.
pub fn read<R: Read>(from: &mut R, buffer: &mut [u8]) -> io::Result<usize>
    ensures bound { IfOk result (λ n. n ≤ length buffer.new) }
    ensures bytes { IfOk result (λ n. Consumes (R.remaining from.old) (R.remaining from.new) (take n buffer.new)) }
    ensures end { IfOk result (λ n. n < length buffer.new → IsAtEnd (R.remaining from.new)) }
{
    let mut got: usize = 0;
    // No `for`: a reader gives as much at a time as it likes.
    while got < buffer.len() {
        let n = from.read(&mut buffer[got..])?;
        if n == 0 {
            return Ok(got);
        }
        got += n;
    }
    Ok(got)
}

// Writes what a buffer was filled with.
pub fn wrote<W: Write>(to: &mut W, out: &Pen) -> Result<(), Failure>
    ensures ok { OnOk result (Appends (W.contents to.old) (W.contents to.new) (take out.now.at out.now.page)) }
    ensures err { IfErr result IsOfOutput }
{
    to.write_all(&out.page[..out.at.min(ROOM)])
        .map_err(Failure::Output)
}

// The line of a bad form, alone.
pub fn refuse<W: Write>(f: Result<(), FormError>, to: &mut W) -> Result<(), Failure>
    ensures ok { OnOk result (Appends (W.contents to.old) (W.contents to.new) (form_text f)) }
    ensures err { IfErr result IsOfOutput }
{
    let mut out = Pen::new();
    scenario::lines::form_line(&mut out, f);
    wrote(to, &out)
}

// Fills a buffer and writes it, again until it is over.
pub fn print<P: Fills, W: Write>(mut p: P, s: &[u8], to: &mut W) -> Result<(), Failure>
    ensures ok { (x : List ℕ) → P.Prints s.now p blank.page x → OnOk result (Appends (W.contents to.old) (W.contents to.new) x) }
    ensures err { IfErr result IsOfOutput }
{
    // Nothing is cleared where nothing is to be printed.
    if p.is_over(s) {
        return Ok(());
    }
    let mut out = Pen::new();
    // No `for`: a fill says whether it was the last.
    while !p.is_over(s) {
        p.next(s, &mut out);
        wrote(to, &out)?;
    }
    Ok(())
}

fn run<W: Write>(s: &[u8], to: &mut W) -> Result<(), Failure>
    ensures ok { OnOk result (Appends (W.contents to.old) (W.contents to.new) (output s.now)) }
    ensures err { IfErr result IsOfOutput }
{
    print(Printing::start(s), s, to)
}

// The scenario that a reader gives, run to its end. Each desk says this of its own output: a closure's clause would be longer.
pub fn play<R: Read, W: Write>(from: &mut R, to: &mut W) -> Result<(), Failure>
    ensures ok { OnOk result (Plays output (R.remaining from.old) (R.remaining from.new) (W.contents to.old) (W.contents to.new)) }
    ensures err { IfErr result (λ f. Leaves f (W.contents to.old) (W.contents to.new)) }
{
    let mut input = Input::new();
    input.read(from)?;
    run(input.given(), to)
}
