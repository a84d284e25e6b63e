// One event as one record, written behind the newest once there is room for all of it.
ghost use Rattle.std.specs.Prelude.{◌≡◌, true, false, ◌∷◌};
ghost use Rattle.wire.specs.Form.{bytes_of};
ghost use Rattle.station.specs.Events.{failed, free, given, answer, number_of, pair_of};
ghost use Rattle.buslog.specs.Record.{tag_of, tagged, four_bytes, pair_bytes, given_values, answer_values};
ghost use Rattle.buslog.specs.Ring.{ring, pushed};
ghost use Rattle.buslog.specs.Note.{begun, written, noted_all, pass_records};

use crate::log::Log;
use bus::time::Time;
use station::phase::{Failure, Told};
use station::station::Turn;
use wire::part::{Load, Telegram};

// What a record begins with.
#[derive(Clone, Copy)]
enum Tag {
    Owns = 1,
    Taken = 2,
    Failed = 3,
    Free = 4,
    Given = 5,
    Answer = 6,
}

impl Tag {
    fn number(self) -> u8
        ensures { result ≡ tag_of (tagged self) }
    {
        self as u8
    }
}

impl Log {
    // Room for a record with `more` values behind the station; its tag, its length, slot number and station.
    fn begin(&mut self, bytes: &mut [u8], tag: Tag, more: u8, slot: u32, station: u8)
        ensures { ring bytes.new self.new ≡ begun (ring bytes.old self.old) (tag_of (tagged tag)) more slot station }
    {
        let n = 5 + u16::from(more);
        self.make_room(bytes, 8 + usize::from(more));
        self.put_all(bytes, &[tag.number()]);
        self.put_all(bytes, &n.to_be_bytes());
        self.put_all(bytes, &slot.to_be_bytes());
        self.put_all(bytes, &[station]);
    }

    // A failure's number; of a broken pair also where its A9 stands and the symbol after it.
    fn note_failed(&mut self, bytes: &mut [u8], slot: u32, station: u8, f: Failure)
        ensures { ring bytes.new self.new ≡ written (ring bytes.old self.old) (tag_of failed) slot station (number_of f ∷ pair_bytes (pair_of f)) }
    {
        let n = f.number();
        if let Failure::PairBroken(pair) = f {
            self.begin(bytes, Tag::Failed, 3, slot, station);
            self.put_all(bytes, &[n, pair.position, pair.symbol]);
        } else {
            self.begin(bytes, Tag::Failed, 1, slot, station);
            self.put_all(bytes, &[n]);
        }
    }

    // The elapsed slots.
    fn note_free(&mut self, bytes: &mut [u8], time: Time, station: u8)
        ensures { ring bytes.new self.new ≡ written (ring bytes.old self.old) (tag_of free) time.slot station (four_bytes time.elapsed) }
    {
        self.begin(bytes, Tag::Free, 4, time.slot, station);
        self.put_all(bytes, &time.elapsed.to_be_bytes());
    }

    // QQ, PB, SB, NN and data.
    fn note_given(&mut self, bytes: &mut [u8], slot: u32, station: u8, t: Telegram)
        ensures { ring bytes.new self.new ≡ written (ring bytes.old self.old) (tag_of given) slot station (given_values t) }
    {
        let nn = wire::form::count_of(t.load);
        self.begin(bytes, Tag::Given, 4 + nn, slot, station);
        self.put_all(bytes, &[t.qq, t.pb, t.sb, nn]);
        self.put_load(bytes, t.load);
    }

    // The slave's address, NN and data.
    fn note_answer(&mut self, bytes: &mut [u8], slot: u32, station: u8, t: Telegram)
        ensures { ring bytes.new self.new ≡ written (ring bytes.old self.old) (tag_of answer) slot station (answer_values t) }
    {
        let nn = wire::form::count_of(t.load);
        self.begin(bytes, Tag::Answer, 2 + nn, slot, station);
        self.put_all(bytes, &[t.zz, nn]);
        self.put_load(bytes, t.load);
    }

    fn put_load(&mut self, bytes: &mut [u8], load: Load)
        ensures { ring bytes.new self.new ≡ pushed (ring bytes.old self.old) (bytes_of load) }
    {
        let n = usize::from(wire::form::count_of(load));
        self.put_all(bytes, &load.bytes[..n]);
    }

    // owns, taken, failed and free of one station.
    pub(crate) fn note_first(&mut self, bytes: &mut [u8], time: Time, t: Turn)
        ensures { ring bytes.new self.new ≡ noted_all (ring bytes.old self.old) (pass_records time false t) }
    {
        let slot = time.slot;
        let a = t.station.address;
        match t.told {
            Told::Owns => self.begin(bytes, Tag::Owns, 0, slot, a),
            Told::Taken => self.begin(bytes, Tag::Taken, 0, slot, a),
            Told::Failed(f) => self.note_failed(bytes, slot, a, f),
            Told::Free => self.note_free(bytes, time, a),
            Told::FailedFree(f) => {
                self.note_failed(bytes, slot, a, f);
                self.note_free(bytes, time, a);
            }
            _ => {}
        }
    }

    // given and answer of one station.
    pub(crate) fn note_last(&mut self, bytes: &mut [u8], time: Time, t: Turn)
        ensures { ring bytes.new self.new ≡ noted_all (ring bytes.old self.old) (pass_records time true t) }
    {
        let a = t.station.address;
        match t.told {
            Told::Given => self.note_given(bytes, time.slot, a, t.station.part),
            Told::Answered => self.note_answer(bytes, time.slot, a, t.station.part),
            _ => {}
        }
    }
}
