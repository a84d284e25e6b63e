// The held records as lines, as many at a time as a lent buffer has room for.
ghost use Rattle.std.specs.Prelude.{◌≡◌};
ghost use Rattle.scenario.specs.Pen.{penned};
ghost use Rattle.diary.specs.Lines.{record_line, size_of};
ghost use Rattle.diary.specs.Fill.{filling, filled};
ghost use Rattle.diary.specs.Series.{PrintsAll, is_over, fills_to_come, over_prints_nothing};

use scenario::pen::{Pen, ROOM};
use scenario::series::Fills;

// A record has at most 28 bytes, and each takes three.
pub const LINE: usize = 84;

// How many bytes the first of some records has: tag, two bytes of length and as many as they say, but never more than there are.
fn size_of(records: &[u8]) -> usize
    ensures { result ≡ size_of records.now }
{
    match records {
        [_, high, low, ..] => laws::at_most(
            3 + usize::from(u16::from_be_bytes([*high, *low])),
            records.len(),
        ),
        _ => records.len(),
    }
}

// A record's bytes, a blank between, and a line feed.
fn line(out: &mut Pen, rec: &[u8])
    ensures { out.new ≡ penned out.old (record_line rec.now) }
{
    if let [first, others @ ..] = rec {
        out.byte(*first);
        for b in others {
            out.hex(*b);
        }
    }
    out.word(b"\n");
}

// How far the held records are printed: the next one's place.
#[derive(Clone, Copy)]
pub struct Records {
    pub next: usize,
}

impl Records {
    // One fill of a buffer, from its start: record after record while a whole line still fits.
    #[tactic(auto, using(crate::proofs::Filling::record_filled))]
    pub fn fill(&mut self, held: &[u8], out: &mut Pen)
        ensures { filling self.new.next out.new ≡ filled held.now self.old.next out.old.page }
    {
        out.rewind();
        // Not a range: each record says where the next one begins.
        while self.next < held.len() && out.at <= ROOM - LINE {
            let to = self.next + size_of(&held[self.next..]);
            line(out, &held[self.next..to]);
            self.next = to;
        }
    }
}

impl Fills for Records {
    ghost Prints = { PrintsAll };

    ghost is_over = { is_over };

    ghost left = { fills_to_come };

    fn is_over(&self, held: &[u8]) -> bool {
        held.len() <= self.next
    }

    fn next(&mut self, held: &[u8], out: &mut Pen) {
        self.fill(held, out);
    }

    ghost ends = { over_prints_nothing };
}
