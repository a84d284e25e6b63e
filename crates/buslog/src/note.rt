// What a slot told, noted in the order of its events.
ghost use Rattle.std.specs.Prelude.{◌≡◌};
ghost use Rattle.buslog.specs.Ring.{ring};
ghost use Rattle.buslog.specs.Note.{noted_all, slot_records};

use crate::log::Log;
use bus::bus::Bus;

impl Log {
    // owns, taken, failed and free by station, then given and answer.
    pub(crate) fn note_slot(&mut self, bytes: &mut [u8], b: Bus)
        ensures { ring bytes.new self.new ≡ noted_all (ring bytes.old self.old) (slot_records b) }
    {
        let time = b.time();
        let turns = &b.turns[..b.attached()];
        for t in turns {
            self.note_first(bytes, time, *t);
        }
        for t in turns {
            self.note_last(bytes, time, *t);
        }
    }
}
