// The lines of a sheet's fields, as many at a time as a lent buffer has room for.
ghost use Rattle.std.specs.Prelude.{◌≡◌};
ghost use Rattle.sheet.specs.Fill.{filling, filled};
ghost use Rattle.sheet.specs.Series.{PrintsAll, is_over, fills_to_come, over_prints_nothing};

use crate::{field, lines};
use scenario::pen::{Pen, ROOM};
use scenario::series::Fills;

// No line is longer: eight shares, each with its blank, sign, ten digits, point and eight digits.
pub const LINE: usize = 175;

// How far a sheet is printed: the next field's place.
#[derive(Clone, Copy)]
pub struct Fields {
    pub next: usize,
}

impl Fields {
    // One fill of a buffer, from its start: field after field while a whole line still fits. Of diary's five lines two differ.
    #[tactic(auto, using(crate::proofs::Filling::field_filled))]
    pub fn fill(&mut self, s: &[u8], out: &mut Pen)
        ensures { filling self.new.next out.new ≡ filled s.now self.old.next out.old.page }
    {
        out.rewind();
        // Not a range: each field says where the next one begins.
        while self.next < s.len() && out.at <= ROOM - LINE {
            let field = field::field_at(s, self.next);
            lines::entry_line(out, field.entry, &s[field.from..field.next]);
            self.next = field.next;
        }
    }
}

impl Fills for Fields {
    ghost Prints = { PrintsAll };

    ghost is_over = { is_over };

    ghost left = { fills_to_come };

    fn is_over(&self, s: &[u8]) -> bool {
        s.len() <= self.next
    }

    fn next(&mut self, s: &[u8], out: &mut Pen) {
        self.fill(s, out);
    }

    ghost ends = { over_prints_nothing };
}
