// A sheet from a reader, and its lines to a writer.
#![tactic(auto)]

ghost use Rattle.std.specs.Prelude.{IfErr, OnOk};
ghost use Rattle.std.specs.Io.KnownBytes.{Appends};
ghost use Rattle.sheet.specs.Output.{values_output};
ghost use Rattle.desk.specs.Playing.{Plays, IsOfOutput, Leaves};

use desk::{Failure, Input};
use sheet::fill::Fields;
use std::io::{Read, Write};

// The lines of all fields, or the line of a bad form alone.
fn run<W: Write>(s: &[u8], to: &mut W) -> Result<(), Failure>
    ensures ok { OnOk result (Appends (W.contents to.old) (W.contents to.new) (values_output s.now)) }
    ensures err { IfErr result IsOfOutput }
{
    match sheet::form::form_of(s) {
        Ok(()) => desk::print(Fields { next: 0 }, s, to),
        bad => desk::refuse(bad, to),
    }
}

// The sheet that a reader gives.
pub fn play<R: Read, W: Write>(from: &mut R, to: &mut W) -> Result<(), Failure>
    ensures ok { OnOk result (Plays values_output (R.remaining from.old) (R.remaining from.new) (W.contents to.old) (W.contents to.new)) }
    ensures err { IfErr result (λ f. Leaves f (W.contents to.old) (W.contents to.new)) }
{
    let mut input = Input::new();
    input.read(from)?;
    run(input.given(), to)
}

// In words of its own, as each program has them.
pub fn usage(errors: &impl Print) {
    let _ = println!(errors; "usage: values < FIELDS");
}
