// The sender of a part: the owner its telegram, a slave its answer (01, "Sending", "Acknowledgement").
ghost use Rattle.std.specs.Prelude.{◌≡◌, ◌<◌};
ghost use Rattle.wire.specs.Form.{room};
ghost use Rattle.station.specs.Table.{sent_whole, sent, hear_own, taken, nak_heard, hear_reply};

use crate::phase::{Attempt, Failure, Phase, Sound, Told};
use crate::station::{Station, Turn};
use wire::part::Part;
use wire::reader::Cursor;

impl Station {
    #[tactic(auto, using(crate::proofs::Due::due_within), unfolding(crate::specs::Table::hear_own))]
    pub(crate) fn hear_own(self, s: u8, at: usize, part: Part, attempt: Attempt) -> Turn
        ensures { result ≡ hear_own self s at part attempt }
    {
        match self.due(at) {
            Sound::Symbol(own) if own == s => self.sent(at, part, attempt),
            _ => self.fail_sender(part, Failure::Disturbed),
        }
    }

    // Its symbol was heard: the next one, or the part is out.
    #[tactic(auto, unfolding(crate::specs::Table::sent))]
    fn sent(self, at: usize, part: Part, attempt: Attempt) -> Turn
        requires { at < room }
        ensures { result ≡ sent self at part attempt }
    {
        let next = at + 1;
        if next < self.out.len {
            return self.go(
                Phase::Sending {
                    at: next,
                    part,
                    attempt,
                },
                Told::Silence,
            );
        }
        self.sent_whole(part, attempt)
    }

    // A broadcast is taken when its last symbol is heard; any other part awaits its acknowledgement.
    #[tactic(auto, unfolding(crate::specs::Table::sent_whole))]
    fn sent_whole(self, part: Part, attempt: Attempt) -> Turn
        ensures { result ≡ sent_whole self part attempt }
    {
        if part.is_master() && Station::for_all(self.part.zz) {
            self.go(Phase::Releasing, Told::Taken)
        } else {
            self.go(Phase::Awaiting { part, attempt }, Told::Silence)
        }
    }

    // What the sender of a part hears while it awaits the acknowledgement.
    #[tactic(auto, unfolding(crate::specs::Table::hear_reply))]
    pub(crate) fn hear_reply(self, s: u8, part: Part, attempt: Attempt) -> Turn
        ensures { result ≡ hear_reply self s part attempt }
    {
        match s {
            Station::ACK => self.taken(part),
            Station::NAK => self.nak_heard(part, attempt),
            _ => self.fail_sender(part, Failure::WrongAck),
        }
    }

    // A part sent to a slave address is answered, with an attempt count of its own.
    #[tactic(auto, unfolding(crate::specs::Table::taken))]
    fn taken(self, part: Part) -> Turn
        ensures { result ≡ taken self part }
    {
        match part {
            Part::MasterPart if self.answered() => self.go(
                Phase::Reading {
                    cursor: Cursor::start(Part::AnswerPart),
                    part: Part::AnswerPart,
                    attempt: Attempt::First,
                },
                Told::Taken,
            ),
            Part::MasterPart => self.go(Phase::Releasing, Told::Taken),
            Part::AnswerPart => self.go(Phase::Silent, Told::Taken),
        }
    }

    // FF the first time: from the next slot on the part is sent again.
    fn nak_heard(self, part: Part, attempt: Attempt) -> Turn
        ensures { result ≡ nak_heard attempt self part }
    {
        match attempt {
            Attempt::First => self.go(
                Phase::Sending {
                    at: 0,
                    part,
                    attempt: Attempt::Again,
                },
                Told::Silence,
            ),
            Attempt::Again => self.fail_sender(part, Failure::TwiceNak),
        }
    }
}
