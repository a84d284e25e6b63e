// The line of a field: the slot number and who is next.
#![tactic(auto, using(scenario::proofs::Written::penned_both, scenario::proofs::Written::penned_none), unfolding(crate::specs::Lines::line_text))]

ghost use Rattle.std.specs.Prelude.{◌≡◌};
ghost use Rattle.scenario.specs.Pen.{penned};
ghost use Rattle.screen.specs.Lines.{next_text, line_text, is_shown, shown_at};

use scenario::pen::Pen;
use walk::walk::Moment;

// The master's address, or nobody.
fn next_word(out: &mut Pen, next: Option<u8>)
    ensures { out.new ≡ penned out.old (next_text next) }
{
    match next {
        Some(a) => out.hex(a),
        None => out.word(b" nobody"),
    }
}

pub fn line(out: &mut Pen, slot: u32, next: Option<u8>)
    ensures { out.new ≡ penned out.old (line_text slot next) }
{
    out.decimal(slot);
    out.word(b" next");
    next_word(out, next);
    out.word(b"\n");
}

// A field has one line, however many moments it has: at its end.
fn is_shown(m: Moment) -> bool
    ensures { result ≡ is_shown m }
{
    matches!(m, Moment::Passed)
}

// The line where the moment has one, else nothing.
pub fn shown(out: &mut Pen, m: Moment, slot: u32, next: Option<u8>)
    ensures { out.new ≡ penned out.old (shown_at m slot next) }
{
    if is_shown(m) {
        line(out, slot, next);
    }
}
