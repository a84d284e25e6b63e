// What a station makes of what all hear in a slot. Quiet, AA and other symbols are told apart here and nowhere else.
ghost use Rattle.std.specs.Prelude.{◌≡◌};
ghost use Rattle.station.specs.Admission.{bids, noted};
ghost use Rattle.station.specs.Hear.{hear_quiet, cut, hear_syn, hear_symbol, hears};
ghost use Rattle.station.specs.Table.{hear_reading};
ghost use Rattle.station.specs.Turn.{goes};

use crate::phase::{Attempt, Failure, Phase, Sound, Told};
use crate::read::Next;
use crate::station::{Station, Turn};
use wire::part::Part;
use wire::reader::{Cursor, Outcome};

impl Station {
    #[tactic(auto, unfolding(crate::specs::Hear::hears))]
    pub fn hear(self, heard: Sound) -> Turn
        ensures { result ≡ hears self heard }
    {
        match heard {
            Sound::Quiet => self.hear_quiet(),
            Sound::Symbol(Station::SYN) => self.hear_syn(),
            Sound::Symbol(s) => self.hear_symbol(s),
        }
    }

    // The station in another phase, and what it is told.
    #[tactic(auto, unfolding(crate::specs::Turn::goes))]
    pub(crate) fn go(self, phase: Phase, told: Told) -> Turn
        ensures { result ≡ goes self phase told }
    {
        Turn {
            told,
            station: Station { phase, ..self },
        }
    }

    #[tactic(auto, unfolding(crate::specs::Hear::hear_quiet))]
    fn hear_quiet(mut self) -> Turn
        ensures { result ≡ hear_quiet self }
    {
        self.admitted = false;
        match self.phase {
            Phase::Silent | Phase::Reading { .. } | Phase::Awaiting { .. } | Phase::Owing => {
                self.go(self.phase, Told::Silence)
            }
            Phase::Sending { part, .. } => self.fail_sender(part, Failure::Disturbed),
            Phase::Judging {
                part,
                attempt,
                matched,
                ..
            } => self.go(
                Phase::Judging {
                    part,
                    attempt,
                    matched,
                    acknowledged: true,
                },
                Told::Silence,
            ),
            Phase::Releasing => self.release(),
        }
    }

    // Whatever AA told a station, from then on it reads.
    #[tactic(auto, unfolding(crate::specs::Hear::hear_syn))]
    fn hear_syn(self) -> Turn
        ensures { result ≡ hear_syn self }
    {
        let turn = self.cut();
        Turn {
            told: turn.told,
            station: turn.station.restart(),
        }
    }

    #[tactic(auto, unfolding(crate::specs::Hear::cut))]
    fn cut(self) -> Turn
        ensures { result ≡ cut self }
    {
        match self.phase {
            Phase::Silent | Phase::Owing => self.go(self.phase, Told::Silence),
            Phase::Reading { part, .. } | Phase::Judging { part, .. } => {
                self.fail_reader(part, Failure::SynHeard)
            }
            Phase::Sending { part, .. } => self.fail_sender(part, Failure::Disturbed),
            Phase::Awaiting { part, .. } => self.fail_sender(part, Failure::SynHeard),
            Phase::Releasing => self.release(),
        }
    }

    #[tactic(auto, unfolding(crate::specs::Hear::hear_symbol))]
    fn hear_symbol(self, s: u8) -> Turn
        ensures { result ≡ hear_symbol self s }
    {
        match self.phase {
            Phase::Silent | Phase::Owing => self.noted().go(self.phase, Told::Silence),
            Phase::Reading {
                cursor,
                part,
                attempt,
            } => self.hear_reading(s, cursor, part, attempt),
            Phase::Sending { at, part, attempt } => self.noted().hear_own(s, at, part, attempt),
            Phase::Awaiting { part, attempt } => self.noted().hear_reply(s, part, attempt),
            Phase::Judging {
                part,
                attempt,
                matched,
                ..
            } => self.noted().judge(s, part, attempt, matched),
            Phase::Releasing => self.noted().release(),
        }
    }

    // Who sent its QQ judges by it; everybody else reads. The station is made anew once, at the end: it is large.
    #[tactic(auto, unfolding(crate::specs::Admission::noted, crate::specs::Table::hear_reading, crate::specs::Table::hear_bid))]
    fn hear_reading(mut self, s: u8, cursor: Cursor, part: Part, attempt: Attempt) -> Turn
        ensures { result ≡ hear_reading (bids self) (noted self) s cursor part attempt }
    {
        if self.bids() {
            if s == self.address {
                return self.noted().owned();
            }
            self.marked = Station::marks(self.address, s);
        }
        let step = cursor.read(self.part, s);
        let zz = step.part.zz;
        let own = self.is_own(zz);
        let next = match step.outcome {
            Outcome::More => Next::read_on(step.cursor, part, attempt, own, zz),
            Outcome::Cut | Outcome::NoMaster | Outcome::Unusable | Outcome::TooLong => {
                Next::lost(part, Failure::OverLong)
            }
            Outcome::BrokenPair(pair) => Next::lost(part, Failure::PairBroken(pair)),
            Outcome::Whole(matched) => Next::whole(part, attempt, matched, zz),
        };
        Turn {
            told: next.told,
            station: Station {
                admitted: false,
                since: self.since.next(),
                phase: next.phase,
                part: step.part,
                ..self
            },
        }
    }
}
