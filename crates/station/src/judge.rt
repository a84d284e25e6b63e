// The reader of a part judges by the next symbol heard (01, "Acknowledgement", "Answer").
ghost use Rattle.std.specs.Prelude.{◌≡◌};
ghost use Rattle.station.specs.Table.{handed_out, judged_taken, read_again, judges};

use crate::phase::{Attempt, Failure, Phase, Told};
use crate::station::{Station, Turn};
use wire::part::Part;
use wire::reader::Cursor;

impl Station {
    #[tactic(auto, unfolding(crate::specs::Table::judges))]
    pub(crate) fn judge(self, s: u8, part: Part, attempt: Attempt, matched: bool) -> Turn
        ensures { result ≡ judges self s part attempt matched }
    {
        match s {
            Station::ACK => self.judge_taken(part, matched),
            Station::NAK => self.read_again(part, attempt),
            _ => self.fail_reader(part, Failure::WrongAck),
        }
    }

    // 00 after a wrong CRC hands nothing out.
    #[tactic(auto, unfolding(crate::specs::Table::judged_taken))]
    fn judge_taken(self, part: Part, matched: bool) -> Turn
        ensures { result ≡ judged_taken self part matched }
    {
        if matched {
            self.hand_out(part)
        } else {
            self.fail_reader(part, Failure::WrongAck)
        }
    }

    #[tactic(auto, unfolding(crate::specs::Table::handed_out))]
    fn hand_out(self, part: Part) -> Turn
        ensures { result ≡ handed_out self part }
    {
        match part {
            Part::MasterPart if self.answered() => self.go(Phase::Owing, Told::Given),
            Part::MasterPart => self.go(Phase::Silent, Told::Given),
            Part::AnswerPart => self.go(Phase::Releasing, Told::Answered),
        }
    }

    // FF the first time: the part is read again from its first symbol, and checked in full again.
    fn read_again(self, part: Part, attempt: Attempt) -> Turn
        ensures { result ≡ read_again attempt self part }
    {
        match attempt {
            Attempt::First => self.go(
                Phase::Reading {
                    cursor: Cursor::start(part),
                    part,
                    attempt: Attempt::Again,
                },
                Told::Silence,
            ),
            Attempt::Again => self.fail_reader(part, Failure::TwiceNak),
        }
    }
}
