// How an owner leaves the wire, and who is told failed (01, "Acknowledgement", "Release").
ghost use Rattle.std.specs.Prelude.{◌≡◌};
ghost use Rattle.station.specs.declared.phase.Phase.TheVariants.{Releasing};
ghost use Rattle.station.specs.declared.phase.Told.TheVariants.{Failed};
ghost use Rattle.station.specs.Table.{left, released, owner_fails, sender_fails, reader_fails};
ghost use Rattle.station.specs.Turn.{goes};

use crate::phase::{Failure, Phase, Told};
use crate::read::Next;
use crate::station::{Station, Turn};
use wire::part::Part;

impl Station {
    // Every way in which an owner leaves the wire: its telegram leaves the outbox, taken or not.
    #[tactic(auto, unfolding(crate::specs::Table::left))]
    fn leave(self) -> Station
        ensures { result ≡ left self }
    {
        Station {
            phase: Phase::Silent,
            outbox: self.outbox.drop_oldest(),
            ..self
        }
    }

    // The owner sent SYN: it leaves, whatever is heard.
    #[tactic(auto, unfolding(crate::specs::Table::released))]
    pub(crate) fn release(self) -> Turn
        ensures { result ≡ released self }
    {
        Turn {
            told: Told::Free,
            station: self.leave(),
        }
    }

    // After failed 1 and 4 it leaves in this slot, after 2, 3 and 5 it sends SYN in the next.
    fn fail_owner(self, failure: Failure) -> Turn
        ensures { result ≡ owner_fails failure self }
    {
        match failure {
            Failure::Disturbed | Failure::SynHeard => Turn {
                told: Told::FailedFree(failure),
                station: self.leave(),
            },
            Failure::WrongAck | Failure::TwiceNak | Failure::PairBroken(_) | Failure::OverLong =>
                self.then_syn(failure),
        }
    }

    // Told now, SYN in the next slot.
    fn then_syn(self, failure: Failure) -> Turn
        ensures { result ≡ goes self Releasing (Failed failure) }
    {
        let next = Next::then_syn(failure);
        self.go(next.phase, next.told)
    }

    // The sender of a master part is the owner, of an answer a slave.
    pub(crate) fn fail_sender(self, part: Part, failure: Failure) -> Turn
        ensures { result ≡ sender_fails part failure self }
    {
        match part {
            Part::MasterPart => self.fail_owner(failure),
            Part::AnswerPart => self.go(Phase::Silent, Told::Failed(failure)),
        }
    }

    // The reader of an answer is the owner, of a master part any other station.
    pub(crate) fn fail_reader(self, part: Part, failure: Failure) -> Turn
        ensures { result ≡ reader_fails part failure self }
    {
        match part {
            Part::MasterPart => self.go(Phase::Silent, Told::Silence),
            Part::AnswerPart => self.fail_owner(failure),
        }
    }
}
