// The program's output, as much of it at a time as a buffer has room for: moment after moment while a whole page still fits.
ghost use Rattle.std.specs.Prelude.{◌≡◌};
ghost use Rattle.bus.specs.Find.{there_is};
ghost use Rattle.bus.specs.declared.find.Query.TheVariants.{WasTold};
ghost use Rattle.scenario.specs.Lines.{slot_text};
ghost use Rattle.scenario.specs.Pen.{penned};
ghost use Rattle.scenario.specs.Fill.{started, is_done, after_form, filling, fields_filled, filled};
ghost use Rattle.scenario.specs.Series.{PrintsAll, is_over, fills_to_come, over_prints_nothing};

use crate::lines;
use crate::pen::{PAGE, Pen, ROOM};
use crate::series::Fills;
use bus::bus::Bus;
use walk::form::FormError;
use walk::walk::{Place, Task};

// What is still to be printed: all of it, with what the form is; the fields; nothing.
#[derive(Clone, Copy)]
pub enum Stage {
    Opening(Result<(), FormError>),
    Fields,
    Done,
}

// How far a scenario is printed.
#[derive(Clone, Copy)]
pub struct Printing {
    pub stage: Stage,
    pub place: Place,
    pub bus: Bus,
}

fn after_form(f: Result<(), FormError>) -> Stage
    ensures { result ≡ after_form f }
{
    match f {
        Ok(()) => Stage::Fields,
        _ => Stage::Done,
    }
}

// The lines of a slot, and whether anybody was told anything in it.
fn slot_lines(out: &mut Pen, bus: &Bus) -> bool
    ensures lines { out.new ≡ penned out.old (slot_text bus.now) }
    ensures told { result ≡ there_is bus.now WasTold }
{
    let time = bus.time_if_free();
    let turns = &bus.turns[..bus.attached()];
    let mut told = false;
    for t in turns {
        told = bus::rest::or_told(told, *t);
        lines::first_of(out, time, *t);
    }
    for t in turns {
        lines::last_of(out, time, *t);
    }
    told
}

impl Printing {
    // Nothing is printed yet.
    pub fn start(s: &[u8]) -> Printing
        ensures { result ≡ started s.now }
    {
        Printing {
            stage: Stage::Opening(walk::form::form_of(s)),
            place: Place::before(0),
            bus: Bus::power_on(),
        }
    }

    pub fn is_done(&self) -> bool
        ensures { result ≡ is_done self.now.stage }
    {
        matches!(self.stage, Stage::Done)
    }

    // One fill of a buffer, from its start: the header, and of a bad form its line; then the fields.
    pub fn fill(&mut self, s: &[u8], out: &mut Pen)
        ensures { filling self.new out.new ≡ filled self.old s.now out.old.page }
    {
        out.rewind();
        if let Stage::Opening(f) = self.stage {
            out.word(b"ebus bench\n");
            lines::form_line(out, f);
            self.stage = after_form(f);
        }
        if let Stage::Fields = self.stage {
            self.fields(s, out);
        }
    }

    // A way to be fast, no rule; proved equal to the walk by `onward`: the bus stays in one local from field to field, and a slot's
    // lines are written from there.
    fn fields(&mut self, s: &[u8], out: &mut Pen)
        ensures { filling self.new out.new ≡ fields_filled self.old.place self.old.bus s.now out.old }
    {
        let mut bus = self.bus;
        let mut place = self.place;
        let mut stage = Stage::Fields;
        // No `for`: fields go on until the page is full or the scenario over.
        while out.at <= ROOM - PAGE {
            let ahead = place.ahead(s);
            let to = ahead.to;
            let mut left: u32 = 0;
            match ahead.task {
                Task::Call(f) => {
                    let verdict = walk::apply::apply(&mut bus, Some(f), s, to);
                    place = Place::within(to, 0);
                    lines::verdict_line(out, verdict);
                    continue;
                }
                Task::Slots(n) => {
                    left = bus.run(n);
                }
                Task::Hear(x) => {
                    bus.slot_heard(x);
                }
                Task::Pass => {
                    place = Place::before(to);
                    continue;
                }
                Task::End => {
                    lines::end_line(out, bus.slot);
                    place = Place::before(to);
                    stage = Stage::Done;
                    break;
                }
            }
            let told = slot_lines(out, &bus);
            place = Place::came(to, left, told);
        }
        *self = Printing { stage, place, bus };
    }
}

impl Fills for Printing {
    ghost Prints = { PrintsAll };

    ghost is_over = { is_over };

    ghost left = { fills_to_come };

    fn is_over(&self, _s: &[u8]) -> bool {
        self.is_done()
    }

    fn next(&mut self, s: &[u8], out: &mut Pen) {
        self.fill(s, out);
    }

    ghost ends = { over_prints_nothing };
}
