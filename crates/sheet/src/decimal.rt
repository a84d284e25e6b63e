// A float that is a number of 1/256 steps, as a decimal: exactly, and as short as it can be.
ghost use Rattle.std.specs.Prelude.{◌≡◌, ◌<◌};
ghost use Rattle.scenario.specs.Pen.{penned};
ghost use Rattle.sheet.specs.Decimal.{fraction_text, steps_text, float_text};

use scenario::pen::Pen;
use value::steps;
use value::steps::Count;

// So many 256ths have at most eight digits behind the point.
const PLACES: usize = 8;

// The digits behind the point: times ten, the whole part, and the same of what is left, until nothing is.
#[tactic(auto, using(crate::proofs::Places::places_written))]
fn fraction(out: &mut Pen, part: u32)
    requires { part < 256 }
    ensures { out.new ≡ penned out.old (fraction_text 8 part) }
{
    let mut left = part;
    for _ in 0..PLACES {
        if left == 0 {
            return;
        }
        out.decimal(left * 10 / 256);
        left = left * 10 % 256;
    }
}

// So many 256ths.
#[tactic(auto, using(scenario::proofs::Written::penned_both), unfolding(crate::specs::Decimal::steps_text))]
fn steps_text(out: &mut Pen, n: u32)
    ensures { out.new ≡ penned out.old (steps_text n) }
{
    out.decimal(n / 256);
    if n % 256 != 0 {
        out.word(b".");
        fraction(out, n % 256);
    }
}

// A float that is no such number has no text: none is ever read.
pub fn float(out: &mut Pen, x: f32)
    ensures { out.new ≡ penned out.old (float_text x) }
{
    match steps::count_of(x, 256.0) {
        Some(Count::Up(n)) => steps_text(out, n),
        Some(Count::Down(n)) => {
            out.word(b"-");
            steps_text(out, n);
        }
        None => {}
    }
}
