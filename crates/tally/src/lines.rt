// The counts as lines, in a lent buffer that has room for all of them.
ghost use Rattle.std.specs.Prelude.{◌≡◌};
ghost use Rattle.scenario.specs.Pen.{penned};
ghost use Rattle.tally.specs.Lines.{tally_text, pair_text, records_text, answer_text};
ghost use Rattle.tally.specs.Book.{all_of, book_text, asked_text};

use crate::ask::Question;
use pairs::{AskError, Book, Pair, Tally};
use scenario::pen::Pen;

// ` taken 3 failed 1`
fn tally(out: &mut Pen, t: Tally)
    ensures { out.new ≡ penned out.old (tally_text t) }
{
    out.word(b" taken ");
    out.decimal(t.taken);
    out.word(b" failed ");
    out.decimal(t.failed);
    out.word(b"\n");
}

// `10 08 taken 3 failed 1`
fn pair(out: &mut Pen, p: Pair)
    ensures { out.new ≡ penned out.old (pair_text p.qq p.zz p.tally) }
{
    out.byte(p.qq);
    out.hex(p.zz);
    tally(out, p.tally);
}

// A line for each record, in table order.
fn records(out: &mut Pen, ps: &[Pair])
    ensures { out.new ≡ penned out.old (records_text ps.now) }
{
    for p in ps {
        pair(out, *p);
    }
}

// The records in use, and last the others.
fn all(out: &mut Pen, b: &Book)
    ensures { out.new ≡ penned out.old (all_of b.now) }
{
    records(out, b.records());
    out.word(b"others");
    tally(out, b.counts.others);
}

// A pair's line alone, or `refused 20`.
#[tactic(auto, using(scenario::proofs::Written::penned_none), unfolding(scenario::specs::Pen::decimal_text, scenario::specs::Pen::digits_of, scenario::specs::Pen::last_digit))]
fn answer(out: &mut Pen, qq: u8, zz: u8, a: Result<Tally, AskError>)
    ensures { out.new ≡ penned out.old (answer_text qq zz a) }
{
    match a {
        Ok(tally) => pair(out, Pair { qq, zz, tally }),
        Err(AskError::NoRecord) => out.word(b"refused 20\n"),
        // A book's table has 64 records.
        Err(AskError::OtherLength) => {}
    }
}

// What is asked, into a buffer; nothing where nothing is.
pub fn text(out: &mut Pen, q: Option<Question>, b: &Book)
    ensures { out.new ≡ penned out.old (asked_text q b.now) }
{
    match q {
        Some(q) => asked(out, q, b),
        None => {}
    }
}

fn asked(out: &mut Pen, q: Question, b: &Book)
    ensures { out.new ≡ penned out.old (book_text q b.now) }
{
    match q {
        Question::All => all(out, b),
        Question::Pair(qq, zz) => answer(out, qq, zz, pairs::ask(&b.table, b.counts, qq, zz)),
    }
}
