// A scenario from a reader, and the display's lines to a writer.
#![tactic(auto)]

ghost use Rattle.std.specs.Prelude.{IfErr, OnOk};
ghost use Rattle.std.specs.Io.KnownBytes.{Appends};
ghost use Rattle.screen.specs.Output.{displayed};
ghost use Rattle.desk.specs.Playing.{Plays, IsOfOutput, Leaves};

use desk::{Failure, Input};
use screen::fill::Showing;
use std::io::{Read, Write};

// The lines of all fields, or the line of a bad form alone.
fn run<W: Write>(s: &[u8], to: &mut W) -> Result<(), Failure>
    ensures ok { OnOk result (Appends (W.contents to.old) (W.contents to.new) (displayed s.now)) }
    ensures err { IfErr result IsOfOutput }
{
    match walk::form::form_of(s) {
        Ok(()) => desk::print(Showing::start(), s, to),
        f => desk::refuse(f, to),
    }
}

// The scenario that a reader gives.
pub fn play<R: Read, W: Write>(from: &mut R, to: &mut W) -> Result<(), Failure>
    ensures ok { OnOk result (Plays displayed (R.remaining from.old) (R.remaining from.new) (W.contents to.old) (W.contents to.new)) }
    ensures err { IfErr result (λ f. Leaves f (W.contents to.old) (W.contents to.new)) }
{
    let mut input = Input::new();
    input.read(from)?;
    run(input.given(), to)
}

// Each program has its own words here; sharing the call would not shorten it.
pub fn usage(errors: &impl Print) {
    let _ = println!(errors; "usage: display < SCENARIO");
}
