// What a slot told, line by line: the transfer under way, and the one that came to its end. Only its lines are listened to.
#![tactic(auto, unfolding(crate::specs::Counts::uncounted, crate::specs::Counts::fresh, crate::specs::Counts::cleared, crate::specs::UnderWay::wants_answer, crate::specs::UnderWay::taken_by, crate::specs::UnderWay::is_taken, crate::specs::Hear::ended_by, crate::specs::Hear::heard_events, station::specs::Events::tells))]

ghost use Rattle.std.specs.Prelude.{◌≡◌, Option, true, false};
ghost use Rattle.bus.specs.Events.{those};
ghost use Rattle.station.specs.Events.{tells};
ghost use Rattle.pairs.specs.Counts.{uncounted, fresh, cleared};
ghost use Rattle.pairs.specs.Hear.{ended_by, heard_of, heard_events};
ghost use Rattle.pairs.specs.UnderWay.{nothing_known, wants_answer, is_owner, may_be_owner, begun, taken_by, answered_in, is_taken};

use crate::{Counts, Heard, Tally, Transfer, UnderWay};
use address::Role;
use bus::bus::Bus;
use station::phase::Told;
use station::station::Turn;
use wire::part::Telegram;

// The broadcast and a part to a master have no answer.
fn wants_answer(zz: u8) -> bool
    ensures { result ≡ wants_answer zz }
{
    matches!(address::role_of(zz), Role::Slave)
}

impl UnderWay {
    fn nothing_known() -> UnderWay
        ensures { result ≡ nothing_known }
    {
        UnderWay {
            owner: None,
            told: false,
            answered: false,
        }
    }

    // An owns line: a transfer begins.
    fn begun(a: u8) -> UnderWay
        ensures { result ≡ begun a }
    {
        UnderWay {
            owner: Some(a),
            told: false,
            answered: false,
        }
    }

    fn is_owner(self, a: u8) -> bool
        ensures { result ≡ is_owner self.owner a }
    {
        self.owner == Some(a)
    }

    // Listening may begin within a transfer, and then its owner is told taken before whoever answers it.
    fn may_be_owner(self, a: u8) -> bool
        ensures { result ≡ may_be_owner self.owner a }
    {
        self.owner.is_none_or(|b| b == a)
    }

    // A taken line: who answers an owner is told so of its answer.
    fn taken_by(&mut self, a: u8)
        ensures { self.new ≡ taken_by self.old a }
    {
        if self.may_be_owner(a) {
            self.owner = Some(a);
            self.told = true;
        }
    }

    // An answer line.
    fn answered_in(&mut self)
        ensures { self.new ≡ answered_in self.old }
    {
        self.answered = true;
    }

    // Taken only if its owner was told taken and, ZZ being a slave address, handed out an answer.
    fn is_taken(self, a: u8, zz: u8) -> bool
        ensures { result ≡ is_taken self a zz }
    {
        self.is_owner(a) && self.told && (self.answered || !wants_answer(zz))
    }
}

impl Heard {
    // A free line ends the transfer of the telegram that it lets go.
    fn ended_by(&mut self, a: u8, t: Telegram)
        ensures { self.new ≡ ended_by self.old a t.qq t.zz }
    {
        let taken = self.current.is_taken(a, t.zz);
        self.current = UnderWay::nothing_known();
        if self.freed.is_none() {
            self.freed = Some(Transfer {
                qq: t.qq,
                zz: t.zz,
                taken,
            });
        }
    }

    // owns, taken, failed and free of one station.
    fn first_of(&mut self, t: Turn)
        ensures { self.new ≡ heard_events self.old (those false (tells t)) }
    {
        let a = t.station.address;
        match t.told {
            Told::Owns => self.current = UnderWay::begun(a),
            Told::Taken => self.current.taken_by(a),
            Told::Free | Told::FailedFree(_) => self.ended_by(a, t.station.part),
            _ => {}
        }
    }

    // given and answer of one station.
    fn last_of(&mut self, t: Turn)
        ensures { self.new ≡ heard_events self.old (those true (tells t)) }
    {
        if let Told::Answered = t.told {
            self.current.answered_in();
        }
    }
}

impl Counts {
    fn uncounted(u: UnderWay) -> Counts
        ensures { result ≡ uncounted u }
    {
        Counts {
            used: 0,
            others: Tally::default(),
            current: u,
        }
    }

    // No record is in use, nothing is known.
    pub fn fresh() -> Counts
        ensures { result ≡ fresh }
    {
        Counts::uncounted(UnderWay::nothing_known())
    }

    // All counts are cleared; what is known of the transfer under way stays, so that it will count as it ends.
    pub fn cleared(self) -> Counts
        ensures { result ≡ cleared self }
    {
        Counts::uncounted(self.current)
    }

    // The slot that the bus has just run: owns, taken, failed and free by station, then given and answer.
    #[tactic(auto, using(bus::proofs::Loops::attached_fit))]
    pub fn hear(self, b: Bus) -> Heard
        ensures { result ≡ heard_of self b }
    {
        let turns = &b.turns[..b.attached()];
        let mut h = Heard {
            before: self,
            current: self.current,
            freed: None,
        };
        for t in turns {
            h.first_of(*t);
        }
        for u in turns {
            h.last_of(*u);
        }
        h
    }
}
