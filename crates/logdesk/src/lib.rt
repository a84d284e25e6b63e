// A scenario from a reader, and its log's lines to a writer. What is noted and filled is proved in `buslog` and `diary`.
#![tactic(auto)]

ghost use Rattle.std.specs.Prelude.{◌≡◌, ℕ, List, true, length, IfErr, OnOk};
ghost use Rattle.std.specs.Io.KnownBytes.{Appends};
ghost use Rattle.walk.specs.Field.{Bytes};
ghost use Rattle.buslog.specs.Latest.{joined};
ghost use Rattle.buslog.specs.Log.{fresh_for, within_limits};
ghost use Rattle.buslog.specs.Ring.{ring, held_bytes};
ghost use Rattle.buslog.specs.Sound.{Sound};
ghost use Rattle.diary.specs.Output.{opening_text, lines_of, held_lines, wirelog_output};
ghost use Rattle.desk.specs.Playing.{Plays, IsOfOutput, Leaves};
ghost use Rattle.logdesk.specs.Playing.{PlaysLog, PlaysWord};

use buslog::log::{BadLength, Log};
use desk::{Failure, Input};
use diary::length::PAST;
use diary::lines::Records;
use scenario::pen::Pen;
use std::io::{Read, Write};
use walk::form::FormError;

// The line of what is refused, alone.
fn refuse<W: Write>(
    s: Result<Log, BadLength>,
    f: Result<(), FormError>,
    to: &mut W,
) -> Result<(), Failure>
    ensures ok { OnOk result (Appends (W.contents to.old) (W.contents to.new) (opening_text s f)) }
    ensures err { IfErr result IsOfOutput }
{
    let mut out = Pen::new();
    diary::opening::opening(&mut out, s, f);
    desk::wrote(to, &out)
}

// Everything that the log holds: no log has more than the buffer it is read into.
fn print_log<W: Write>(l: Log, bytes: &[u8], to: &mut W) -> Result<(), Failure>
    ensures ok { (k : ℕ) → (s : List ℕ) → Bytes s → Sound (ring bytes.now l) → held_bytes (ring bytes.now l) ≡ joined (held_lines k s) → OnOk result (Appends (W.contents to.old) (W.contents to.new) (lines_of (held_lines k s))) }
    ensures err { IfErr result IsOfOutput }
{
    let mut held = [0u8; PAST];
    let n = l.read(bytes, &mut held).unwrap_or(0);
    desk::print(Records { next: 0 }, &held[..n], to)
}

// A scenario that is one is followed to its end.
fn run<W: Write>(l: Log, bytes: &mut [u8], s: &[u8], to: &mut W) -> Result<(), Failure>
    ensures ok { l ≡ fresh_for (length bytes.old) → within_limits (length bytes.old) ≡ true → OnOk result (Appends (W.contents to.old) (W.contents to.new) (wirelog_output (length bytes.old) s.now)) }
    ensures err { IfErr result IsOfOutput }
{
    match walk::form::form_of(s) {
        Ok(()) => print_log(diary::follow::follow(s, l, bytes), bytes, to),
        bad => refuse(Ok(l), bad, to),
    }
}

fn run_read<R: Read, W: Write>(
    l: Log,
    bytes: &mut [u8],
    from: &mut R,
    to: &mut W,
) -> Result<(), Failure>
    ensures ok { l ≡ fresh_for (length bytes.old) → within_limits (length bytes.old) ≡ true → OnOk result (Plays (wirelog_output (length bytes.old)) (R.remaining from.old) (R.remaining from.new) (W.contents to.old) (W.contents to.new)) }
    ensures err { IfErr result (λ f. Leaves f (W.contents to.old) (W.contents to.new)) }
{
    let mut input = Input::new();
    input.read(from)?;
    run(l, bytes, input.given(), to)
}

// The length is looked at before anything is read.
fn play_in<R: Read, W: Write>(bytes: &mut [u8], from: &mut R, to: &mut W) -> Result<(), Failure>
    ensures ok { OnOk result (PlaysLog (length bytes.old) (R.remaining from.old) (R.remaining from.new) (W.contents to.old) (W.contents to.new)) }
    ensures err { IfErr result (λ f. Leaves f (W.contents to.old) (W.contents to.new)) }
{
    match Log::set_up(bytes) {
        Ok(l) => run_read(l, bytes, from, to),
        bad => refuse(bad, Ok(()), to),
    }
}

// The scenario that a reader gives, run to its end with a log of so many bytes: the first of a buffer.
pub fn play<R: Read, W: Write>(length: usize, from: &mut R, to: &mut W) -> Result<(), Failure>
    ensures ok { OnOk result (PlaysLog length (R.remaining from.old) (R.remaining from.new) (W.contents to.old) (W.contents to.new)) }
    ensures err { IfErr result (λ f. Leaves f (W.contents to.old) (W.contents to.new)) }
{
    let mut bytes = [0u8; PAST];
    let n = length.min(PAST);
    play_in(&mut bytes[..n], from, to)
}

// In words of its own, as each program has them.
pub fn usage(errors: &impl Print) {
    let _ = println!(errors; "usage: wirelog LENGTH < SCENARIO");
}

// The same with the length as its user gives it.
pub fn play_as<E: Print, R: Read, W: Write>(
    errors: &E,
    length: &[u8],
    from: &mut R,
    to: &mut W,
) -> Result<(), Failure>
    ensures ok { OnOk result (PlaysWord length.now (R.remaining from.old) (R.remaining from.new) (W.contents to.old) (W.contents to.new)) }
    ensures err { IfErr result (λ f. Leaves f (W.contents to.old) (W.contents to.new)) }
{
    let Some(n) = diary::length::length_of(length) else {
        usage(errors);
        return Ok(());
    };
    play(n, from, to)
}
