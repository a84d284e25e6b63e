// Admission: whom a heard AA admits, who sends its QQ, and what it makes of what it then hears (01, "Admission").
ghost use Rattle.std.specs.Prelude.{◌≡◌};
ghost use Rattle.station.specs.declared.station.Station.{Station};
ghost use Rattle.station.specs.Admission.{since_next, admits, restarted, bids, say_bid, noted, owned, withdrawn};
ghost use Rattle.station.specs.Turn.{with_access};

use crate::phase::{Attempt, Phase, Since, Sound, Told};
use crate::station::{Station, Turn};
use wire::part::Part;
use wire::reader::Cursor;

impl Since {
    pub(crate) fn next(self) -> Since
        ensures { result ≡ since_next self }
    {
        match self {
            Since::Nothing => Since::OneSymbol,
            Since::OneSymbol | Since::ManyOrNoSyn => Since::ManyOrNoSyn,
        }
    }
}

impl Station {
    // Whether the AA just heard admits it: all masters, or only the marked after exactly one symbol.
    #[tactic(auto, unfolding(crate::specs::Admission::admits))]
    fn admits(self) -> bool
        ensures { result ≡ admits self }
    {
        self.master && (self.marked || !matches!(self.since, Since::OneSymbol))
    }

    // Marks go out at every AA, and each station reads.
    #[tactic(auto, unfolding(crate::specs::Admission::restarted))]
    pub(crate) fn restart(self) -> Station
        ensures { result ≡ restarted self }
    {
        Station {
            admitted: self.admits(),
            marked: false,
            since: Since::Nothing,
            phase: Phase::Reading {
                cursor: Cursor::start(Part::MasterPart),
                part: Part::MasterPart,
                attempt: Attempt::First,
            },
            ..self
        }
    }

    // Whether it sends its QQ: a master that the AA admitted, with a telegram waiting.
    #[tactic(auto, unfolding(crate::specs::Admission::bids))]
    pub fn bids(self) -> bool
        ensures { result ≡ bids self }
    {
        self.admitted && self.outbox.held() > 0
    }

    #[tactic(auto, unfolding(crate::specs::Admission::say_bid))]
    pub(crate) fn say_bid(self) -> Sound
        ensures { result ≡ say_bid self }
    {
        if self.bids() {
            Sound::Symbol(self.address)
        } else {
            Sound::Quiet
        }
    }

    // A symbol is heard, and with its slot the admission is over.
    #[tactic(auto, unfolding(crate::specs::Admission::noted))]
    pub(crate) fn noted(self) -> Station
        ensures { result ≡ noted self }
    {
        Station {
            admitted: false,
            since: self.since.next(),
            ..self
        }
    }

    // It heard its own QQ: it owns the wire, and ZZ comes next.
    #[tactic(auto, unfolding(crate::specs::Admission::owned))]
    pub(crate) fn owned(self) -> Turn
        ensures { result ≡ owned self }
    {
        Turn {
            told: Told::Owns,
            station: Station {
                phase: Phase::Sending {
                    at: 1,
                    part: Part::MasterPart,
                    attempt: Attempt::First,
                },
                part: self.outbox.oldest(),
                out: self.outbox.oldest_form(),
                ..self
            },
        }
    }

    // It heard another symbol: it marks itself if the low half is its class.
    #[tactic(auto, unfolding(crate::specs::Admission::withdrawn))]
    pub(crate) fn marks(address: u8, s: u8) -> bool
        ensures { (t : Station) → t.address ≡ address → with_access t t.admitted result t.since ≡ withdrawn t s }
    {
        s % 16 == address % 16
    }
}
