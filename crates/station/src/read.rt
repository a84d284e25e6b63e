// The reader of a part: the owner reads an answer, any other station a master part (01, "Reading", "Broadcast").
// What a symbol makes of its reader is worked out in small values: a whole station would be copied at every step.
ghost use Rattle.std.specs.Prelude.{◌≡◌};
ghost use Rattle.station.specs.declared.phase.Phase.TheVariants.{Releasing};
ghost use Rattle.station.specs.declared.phase.Told.TheVariants.{Failed};
ghost use Rattle.station.specs.declared.station.Station.{Station};
ghost use Rattle.station.specs.Addressed.{for_all, answered, is_own};
ghost use Rattle.station.specs.Table.{owner_fails, reader_fails, whole, addressed, read_on};
ghost use Rattle.station.specs.Turn.{goes};

use crate::phase::{Attempt, Failure, Phase, Told};
use crate::station::Station;
use address::Role;
use wire::part::Part;
use wire::reader::{Cursor, Place};

// The phase that a reader goes into, and what it is told.
#[derive(Clone, Copy)]
pub struct Next {
    pub phase: Phase,
    pub told: Told,
}

impl Station {
    // Whether ZZ is FE.
    #[tactic(auto, unfolding(crate::specs::Addressed::for_all))]
    pub(crate) fn for_all(zz: u8) -> bool
        ensures { result ≡ for_all zz }
    {
        matches!(address::role_of(zz), Role::Broadcast)
    }

    // Whether an answer belongs to the transfer: a part sent to a master address gets none.
    #[tactic(auto, unfolding(crate::specs::Addressed::answered))]
    pub(crate) fn answered(self) -> bool
        ensures { result ≡ answered self.part.zz }
    {
        !address::is_master(self.part.zz)
    }

    // Whether an address is its own; a master has two.
    #[tactic(auto, unfolding(crate::specs::Addressed::is_own))]
    pub fn is_own(self, zz: u8) -> bool
        ensures { result ≡ is_own self zz }
    {
        zz == self.address || (self.master && zz == address::slave_of(self.address))
    }
}

impl Next {
    // ZZ is tested when it has been read: PB comes next. `own`: whether it is the reader's own address.
    #[tactic(auto, unfolding(crate::specs::Table::read_on))]
    pub(crate) fn read_on(cursor: Cursor, part: Part, attempt: Attempt, own: bool, zz: u8) -> Next
        ensures { (s : Station) → s.part.zz ≡ zz → is_own s zz ≡ own
            → goes s result.phase result.told ≡ read_on s cursor part attempt }
    {
        let on = Phase::Reading {
            cursor,
            part,
            attempt,
        };
        match cursor.place {
            Place::Pb => Next::addressed(on, own, zz),
            _ => Next {
                phase: on,
                told: Told::Silence,
            },
        }
    }

    #[tactic(auto, unfolding(crate::specs::Table::addressed))]
    fn addressed(on: Phase, own: bool, zz: u8) -> Next
        ensures { (s : Station) → s.part.zz ≡ zz → is_own s zz ≡ own
            → goes s result.phase result.told ≡ addressed s on }
    {
        let goes_on = own || Station::for_all(zz);
        Next {
            phase: if goes_on { on } else { Phase::Silent },
            told: Told::Silence,
        }
    }

    // The part has come to its end. A broadcast is handed out at once; any other part is acknowledged.
    #[tactic(auto, unfolding(crate::specs::Table::whole))]
    pub(crate) fn whole(part: Part, attempt: Attempt, matched: bool, zz: u8) -> Next
        ensures { (s : Station) → s.part.zz ≡ zz → goes s result.phase result.told ≡ whole s part attempt matched }
    {
        if part.is_master() && Station::for_all(zz) {
            return Next {
                phase: Phase::Silent,
                told: if matched { Told::Given } else { Told::Silence },
            };
        }
        Next {
            phase: Phase::Judging {
                part,
                attempt,
                matched,
                acknowledged: false,
            },
            told: Told::Silence,
        }
    }

    // The reading comes to nothing with this symbol: the owner is told so and sends SYN, any other station is silent.
    pub(crate) fn lost(part: Part, failure: Failure) -> Next
        ensures { (s : Station) → owner_fails failure s ≡ goes s Releasing (Failed failure)
            → goes s result.phase result.told ≡ reader_fails part failure s }
    {
        match part {
            Part::MasterPart => Next {
                phase: Phase::Silent,
                told: Told::Silence,
            },
            Part::AnswerPart => Next::then_syn(failure),
        }
    }

    // An owner is told failed, and sends SYN in the next slot.
    pub(crate) fn then_syn(failure: Failure) -> Next
        ensures { (s : Station) → goes s result.phase result.told ≡ goes s Releasing (Failed failure) }
    {
        Next {
            phase: Phase::Releasing,
            told: Told::Failed(failure),
        }
    }
}
