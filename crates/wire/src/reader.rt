// The reader of a part, one symbol at a time (01, "Wire form" and "Reading"). It knows nothing of stations.
ghost use Rattle.std.specs.Prelude.{◌≡◌, true, false};
ghost use Rattle.wire.specs.Reader.{place_after, start_at, start_of, ended, onward, more, read_qq, read_head, read_nn, read_byte, read_data, read_crc, read_place, read_one};

use crate::pair::{Undone, WrongPair};
use crate::part::{Load, Part, Telegram};
use crate::symbol::Kind;
use crate::{pair, symbol};

// Which symbol of the part comes next. Data counts the bytes already read.
#[derive(Clone, Copy)]
pub enum Place {
    Qq,
    Zz,
    Pb,
    Sb,
    Nn,
    Data(u8),
    Crc,
}

// How far a part has been read: symbols heard since its first, what comes next, whether an A9 waits for its second
// symbol, the CRC's register, and NN.
#[derive(Clone, Copy)]
pub struct Cursor {
    pub at: u8,
    pub place: Place,
    pub opened: bool,
    pub register: u8,
    pub nn: u8,
}

// How a symbol left the reading.
#[derive(Clone, Copy)]
pub enum Outcome {
    // More symbols belong to the part.
    More,
    // AA always ends the reading.
    Cut,
    // QQ is no master address.
    NoMaster,
    // ZZ, PB or SB is A9.
    Unusable,
    // NN is above 16.
    TooLong,
    // A9 in data or CRC with neither 00, 01 nor AA behind it: where it stands, and that symbol.
    BrokenPair(WrongPair),
    // The part is whole, and its CRC matches or is wrong.
    Whole(bool),
}

// The cursor for the next symbol, and the part as far as it is read.
#[derive(Clone, Copy)]
pub struct Step {
    pub outcome: Outcome,
    pub cursor: Cursor,
    pub part: Telegram,
}

// What comes behind `read` data bytes.
#[tactic(auto, unfolding(crate::specs::Reader::place_after))]
fn place_after(read: u8, nn: u8) -> Place
    ensures { result ≡ place_after read nn }
{
    if read < nn {
        Place::Data(read)
    } else {
        Place::Crc
    }
}

impl Cursor {
    // A master part begins with QQ, an answer with NN.
    #[tactic(auto, unfolding(crate::specs::Reader::master_start, crate::specs::Reader::answer_start))]
    pub fn start(part: Part) -> Cursor
        ensures { result ≡ start_of part }
    {
        match part {
            Part::MasterPart => Cursor::from(Place::Qq),
            Part::AnswerPart => Cursor::from(Place::Nn),
        }
    }

    fn from(place: Place) -> Cursor
        ensures { result ≡ start_at place }
    {
        Cursor {
            at: 0,
            place,
            opened: false,
            register: 0,
            nn: 0,
        }
    }

    // One symbol more of the part; AA always ends the reading.
    #[tactic(auto, unfolding(crate::specs::Reader::read_one))]
    pub fn read(self, part: Telegram, s: u8) -> Step
        ensures { result ≡ read_one self part s }
    {
        match symbol::kind_of(s) {
            Kind::Syn => self.ended(part, Outcome::Cut),
            kind => self.read_place(part, s, kind),
        }
    }

    #[tactic(auto, unfolding(crate::specs::Reader::ended))]
    fn ended(self, part: Telegram, outcome: Outcome) -> Step
        ensures { result ≡ ended self part outcome }
    {
        Step {
            outcome,
            cursor: self,
            part,
        }
    }

    // The cursor behind a symbol that the CRC covers.
    #[tactic(auto, unfolding(crate::specs::Reader::onward))]
    fn onward(self, s: u8, place: Place, opened: bool) -> Cursor
        ensures { result ≡ onward self s place opened }
    {
        Cursor {
            at: self.at.wrapping_add(1),
            place,
            opened,
            register: crc::step(self.register, s),
            ..self
        }
    }

    #[tactic(auto, unfolding(crate::specs::Reader::more))]
    fn more(self, part: Telegram) -> Step
        ensures { result ≡ more self part }
    {
        Step {
            outcome: Outcome::More,
            cursor: self,
            part,
        }
    }

    // QQ, ZZ, PB, SB, NN, data, CRC.
    #[tactic(auto, unfolding(crate::specs::Reader::read_place))]
    fn read_place(self, part: Telegram, s: u8, kind: Kind) -> Step
        ensures { result ≡ read_place self part s kind }
    {
        let escape = kind.is_escape();
        match self.place {
            Place::Qq => self.read_qq(part, s),
            Place::Zz => self.read_head(part, s, escape, Place::Pb, Telegram { zz: s, ..part }),
            Place::Pb => self.read_head(part, s, escape, Place::Sb, Telegram { pb: s, ..part }),
            Place::Sb => self.read_head(part, s, escape, Place::Nn, Telegram { sb: s, ..part }),
            Place::Nn => self.read_nn(part, s, kind.is_count()),
            Place::Data(read) => self.read_data(part, read, s),
            Place::Crc => self.read_crc(part, s),
        }
    }

    #[tactic(auto, unfolding(crate::specs::Reader::read_qq))]
    fn read_qq(self, part: Telegram, s: u8) -> Step
        ensures { result ≡ read_qq self part s }
    {
        if address::is_master(s) {
            self.onward(s, Place::Zz, false)
                .more(Telegram { qq: s, ..part })
        } else {
            self.ended(part, Outcome::NoMaster)
        }
    }

    // ZZ, PB and SB are anything but A9; `next` is the place behind it.
    #[tactic(auto, unfolding(crate::specs::Reader::read_head))]
    fn read_head(self, part: Telegram, s: u8, escape: bool, next: Place, with: Telegram) -> Step
        ensures { result ≡ read_head self part s escape next with }
    {
        if escape {
            self.ended(part, Outcome::Unusable)
        } else {
            self.onward(s, next, false).more(with)
        }
    }

    #[tactic(auto, unfolding(crate::specs::Reader::read_nn))]
    fn read_nn(self, mut part: Telegram, s: u8, counts: bool) -> Step
        ensures { result ≡ read_nn self part s counts }
    {
        if !counts {
            return self.ended(part, Outcome::TooLong);
        }
        part.load.nn = s;
        let cursor = self.onward(s, place_after(0, s), false);
        Cursor { nn: s, ..cursor }.more(part)
    }

    #[tactic(auto, unfolding(crate::specs::Reader::read_data))]
    fn read_data(self, part: Telegram, read: u8, s: u8) -> Step
        ensures { result ≡ read_data self part read s }
    {
        match pair::undo(self.opened, self.at, s) {
            Undone::Byte(b) => self.read_byte(part, read, s, b),
            Undone::Opens => self.onward(s, Place::Data(read), true).more(part),
            Undone::Ends => self.ended(part, Outcome::Cut),
            Undone::Broken(pair) => self.ended(part, Outcome::BrokenPair(pair)),
        }
    }

    #[tactic(auto, unfolding(crate::specs::Reader::read_byte))]
    fn read_byte(self, mut part: Telegram, read: u8, s: u8, b: u8) -> Step
        ensures { result ≡ read_byte self part read s b }
    {
        let i = read as usize;
        if i >= Load::MOST {
            return self.ended(part, Outcome::TooLong);
        }
        part.load.bytes[i] = b;
        self.onward(s, place_after(read + 1, self.nn), false)
            .more(part)
    }

    // The CRC does not cover itself: the register stays.
    #[tactic(auto, unfolding(crate::specs::Reader::read_crc))]
    fn read_crc(self, part: Telegram, s: u8) -> Step
        ensures { result ≡ read_crc self part s }
    {
        match pair::undo(self.opened, self.at, s) {
            Undone::Byte(b) => self.ended(part, Outcome::Whole(b == self.register)),
            Undone::Opens => Cursor {
                at: self.at.wrapping_add(1),
                opened: true,
                ..self
            }
            .more(part),
            Undone::Ends => self.ended(part, Outcome::Cut),
            Undone::Broken(pair) => self.ended(part, Outcome::BrokenPair(pair)),
        }
    }
}
