// A station as a value: fresh, made ready for a slot, and what it says.
ghost use Rattle.std.specs.Prelude.{◌≡◌, true, false};
ghost use Rattle.station.specs.Station.{fresh, answering, ready, due, acknowledgement, says};

use crate::outbox::Outbox;
use crate::phase::{Attempt, Phase, Since, Sound, Told};
use crate::replies::ReplyBook;
use wire::form::Wire;
use wire::part::{Part, Telegram};

#[derive(Clone, Copy)]
pub struct Station {
    // The address that it was attached with, and whether that is a master address.
    pub address: u8,
    pub master: bool,
    pub admitted: bool,
    pub marked: bool,
    pub since: Since,
    pub phase: Phase,
    // The master part of the transfer that it has a share in; its load gives way to the answer's.
    pub part: Telegram,
    // The symbols of the part that it sends.
    pub out: Wire,
    pub outbox: Outbox,
    pub replies: ReplyBook,
}

// The station after a slot, and what it is told.
#[derive(Clone, Copy)]
pub struct Turn {
    // First: behind the large station it makes a slot up to 18 percent slower.
    pub told: Told,
    pub station: Station,
}

impl Station {
    pub const SYN: u8 = 0xAA;

    pub const ACK: u8 = 0x00;

    pub const NAK: u8 = 0xFF;

    pub const QUEUE_DEPTH: usize = 4;

    pub const REPLY_ENTRIES: usize = 8;

    // Two names over one function: what is made is read where it is made.
    pub fn fresh_master(address: u8) -> Station
        ensures { result ≡ fresh address true }
    {
        Station::fresh(address, true)
    }

    pub fn fresh_slave(address: u8) -> Station
        ensures { result ≡ fresh address false }
    {
        Station::fresh(address, false)
    }

    // Before the first AA it is silent.
    #[tactic(auto, unfolding(crate::specs::Station::fresh))]
    fn fresh(address: u8, master: bool) -> Station
        ensures { result ≡ fresh address master }
    {
        let outbox = Outbox::empty();
        Station {
            address,
            master,
            admitted: false,
            marked: false,
            since: Since::ManyOrNoSyn,
            phase: Phase::Silent,
            part: outbox.oldest(),
            out: wire::form::empty(),
            outbox,
            replies: ReplyBook::empty(),
        }
    }

    // As a slot begins: a slave that owes an answer takes it from its reply book as it stands now.
    #[tactic(auto, unfolding(crate::specs::Station::ready))]
    pub fn ready(self) -> Station
        ensures { result ≡ ready self }
    {
        match self.phase {
            Phase::Owing => self.answering(),
            _ => self,
        }
    }

    #[tactic(auto, unfolding(crate::specs::Station::answering))]
    fn answering(self) -> Station
        ensures { result ≡ answering self }
    {
        let load = self.replies.answer(self.part.pb, self.part.sb);
        Station {
            phase: Phase::Sending {
                at: 0,
                part: Part::AnswerPart,
                attempt: Attempt::First,
            },
            out: wire::form::answer_form(load),
            ..self
        }
    }

    // The symbol at a place of the part that it sends.
    #[tactic(auto, unfolding(crate::specs::Station::due))]
    pub(crate) fn due(self, at: usize) -> Sound
        ensures { result ≡ due self at }
    {
        match self.out.bytes.get(at) {
            Some(&s) if at < self.out.len => Sound::Symbol(s),
            _ => Sound::Quiet,
        }
    }

    // What it says in a slot, from its own state alone.
    #[tactic(auto, unfolding(crate::specs::Station::says))]
    pub fn say(self) -> Sound
        ensures { result ≡ says self }
    {
        match self.phase {
            Phase::Silent | Phase::Awaiting { .. } | Phase::Owing => Sound::Quiet,
            Phase::Reading { .. } => self.say_bid(),
            Phase::Sending { at, .. } => self.due(at),
            Phase::Judging {
                matched,
                acknowledged,
                ..
            } => Station::acknowledgement(matched, acknowledged),
            Phase::Releasing => Sound::Symbol(Station::SYN),
        }
    }

    // Once for each reading, and nothing more until it has judged.
    #[tactic(auto, unfolding(crate::specs::Station::acknowledgement))]
    fn acknowledgement(matched: bool, acknowledged: bool) -> Sound
        ensures { result ≡ acknowledgement matched acknowledged }
    {
        if acknowledged {
            Sound::Quiet
        } else if matched {
            Sound::Symbol(Station::ACK)
        } else {
            Sound::Symbol(Station::NAK)
        }
    }
}
