// A scenario from a reader, and its counts to a writer.
#![tactic(auto)]

ghost use Rattle.std.specs.Prelude.{◌≡◌, ◌≢◌, Option, Some, None, IfErr, OnOk};
ghost use Rattle.std.specs.Io.KnownBytes.{Appends, Keeps};
ghost use Rattle.walk.specs.Form.{form_of};
ghost use Rattle.tally.specs.Ask.{question_of};
ghost use Rattle.tally.specs.Output.{counts_output};
ghost use Rattle.desk.specs.Playing.{Plays, IsOfOutput, Leaves};

use desk::{Failure, Input};
use scenario::pen::Pen;
use std::io::{Read, Write};
use tally::ask::Question;

// A scenario that is one is followed to its end; the buffer has room for all that is asked.
fn answer<W: Write>(q: Question, s: &[u8], to: &mut W) -> Result<(), Failure>
    ensures ok { form_of s.now ≡ Ok tt → OnOk result (Appends (W.contents to.old) (W.contents to.new) (counts_output (Some q) s.now)) }
    ensures err { IfErr result IsOfOutput }
{
    let book = tally::follow::follow(s);
    let mut out = Pen::new();
    tally::lines::text(&mut out, Some(q), &book);
    desk::wrote(to, &out)
}

fn run<W: Write>(q: Question, s: &[u8], to: &mut W) -> Result<(), Failure>
    ensures ok { OnOk result (Appends (W.contents to.old) (W.contents to.new) (counts_output (Some q) s.now)) }
    ensures err { IfErr result IsOfOutput }
{
    match walk::form::form_of(s) {
        Ok(()) => answer(q, s, to),
        bad => desk::refuse(bad, to),
    }
}

fn run_read<R: Read, W: Write>(q: Question, from: &mut R, to: &mut W) -> Result<(), Failure>
    ensures ok { OnOk result (Plays (counts_output (Some q)) (R.remaining from.old) (R.remaining from.new) (W.contents to.old) (W.contents to.new)) }
    ensures err { IfErr result (λ f. Leaves f (W.contents to.old) (W.contents to.new)) }
{
    let mut input = Input::new();
    input.read(from)?;
    run(q, input.given(), to)
}

// In words of its own, as each program has them.
pub fn usage(errors: &impl Print) {
    let _ = println!(errors; "usage: counts [QQ ZZ] < SCENARIO");
}

// The scenario that a reader gives. The question is looked at before anything is read; where there is none the usage is told.
pub fn play<E: Print, R: Read, W: Write>(
    errors: &E,
    q: Option<Question>,
    from: &mut R,
    to: &mut W,
) -> Result<(), Failure>
    ensures unasked { q ≡ None → Keeps (W.contents to.old) (W.contents to.new) }
    ensures asked { q ≢ None
        → OnOk result (Plays (counts_output q) (R.remaining from.old) (R.remaining from.new) (W.contents to.old) (W.contents to.new)) }
    ensures err { IfErr result (λ f. Leaves f (W.contents to.old) (W.contents to.new)) }
{
    match q {
        Some(q) => run_read(q, from, to),
        None => {
            usage(errors);
            Ok(())
        }
    }
}

// The same with source and destination as their user gives them.
pub fn play_as<E: Print, R: Read, W: Write>(
    errors: &E,
    first: &[u8],
    second: &[u8],
    from: &mut R,
    to: &mut W,
) -> Result<(), Failure>
    ensures ok { question_of first.now second.now ≢ None
        → OnOk result (Plays (counts_output (question_of first.now second.now)) (R.remaining from.old) (R.remaining from.new) (W.contents to.old) (W.contents to.new)) }
    ensures err { IfErr result (λ f. Leaves f (W.contents to.old) (W.contents to.new)) }
{
    play(errors, tally::ask::question_of(first, second), from, to)
}
