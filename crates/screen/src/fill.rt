// The lines of a scenario's fields, as many at a time as a buffer has room for: moment after moment while a whole line still fits.
ghost use Rattle.std.specs.Prelude.{◌≡◌};
ghost use Rattle.screen.specs.Fill.{started, filling, filled};
ghost use Rattle.screen.specs.Series.{PrintsAll, is_over, fills_to_come, over_prints_nothing};

use crate::line;
use bus::bus::Bus;
use scenario::pen::{Pen, ROOM};
use scenario::series::Fills;
use walk::walk::Place;

// The longest line has ten digits, ` next nobody` and a line feed.
pub const LINE: usize = 23;

// How far a scenario is shown. Place and bus stand where it is done too, so `done` is no Option of them.
#[derive(Clone, Copy)]
pub struct Showing {
    pub place: Place,
    pub bus: Bus,
    pub done: bool,
}

impl Showing {
    // Nothing is shown yet.
    pub fn start() -> Showing
        ensures { result ≡ started }
    {
        Showing {
            place: Place::before(0),
            bus: Bus::power_on(),
            done: false,
        }
    }

    // One fill of a buffer, from its start.
    pub fn fill(&mut self, s: &[u8], out: &mut Pen)
        ensures { filling self.new out.new ≡ filled self.old s.now out.old.page }
    {
        out.rewind();
        self.done = false;
        // No `for`: moments come until the page is full or the scenario over.
        while out.at <= ROOM - LINE {
            let moment = walk::walk::onward(&mut self.bus, &mut self.place, s, true);
            line::shown(out, moment, self.bus.slot, self.bus.next());
            if moment.is_end() {
                self.done = true;
                break;
            }
        }
    }
}

impl Fills for Showing {
    ghost Prints = { PrintsAll };

    ghost is_over = { is_over };

    ghost left = { fills_to_come };

    fn is_over(&self, _s: &[u8]) -> bool {
        self.done
    }

    fn next(&mut self, s: &[u8], out: &mut Pen) {
        self.fill(s, out);
    }

    ghost ends = { over_prints_nothing };
}
