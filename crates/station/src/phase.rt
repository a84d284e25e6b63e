// What a station is about, what it says and hears in a slot, and what it is told.
ghost use Rattle.std.specs.Prelude.{◌≡◌};
ghost use Rattle.station.specs.Events.{number_of};
ghost use Rattle.station.specs.Phase.{owner};

use wire::pair::WrongPair;
use wire::part::Part;
use wire::reader::Cursor;

// Counted for each part by itself.
#[derive(Clone, Copy)]
pub enum Attempt {
    First,
    Again,
}

#[derive(Clone, Copy)]
pub enum Phase {
    Silent,
    // The owner reads an answer, any other station a master part.
    Reading {
        cursor: Cursor,
        part: Part,
        attempt: Attempt,
    },
    // The owner sends its telegram, a slave its answer; `at`: the next symbol.
    Sending {
        at: usize,
        part: Part,
        attempt: Attempt,
    },
    // The sender of a part waits for its acknowledgement.
    Awaiting {
        part: Part,
        attempt: Attempt,
    },
    // The reader of a part acknowledges it once and waits for what is heard.
    Judging {
        part: Part,
        attempt: Attempt,
        matched: bool,
        acknowledged: bool,
    },
    // A slave answers from the next slot on.
    Owing,
    // The owner sends the SYN that ends the transfer.
    Releasing,
}

// What was heard since the last AA.
#[derive(Clone, Copy)]
pub enum Since {
    Nothing,
    OneSymbol,
    // More than one symbol, or no AA yet: before the first AA nothing counts.
    ManyOrNoSyn,
}

// What one station says in a slot, and what all hear. No Option: quiet is 01's word for
// something that all hear, and definitions are in 01's words.
#[derive(Clone, Copy)]
pub enum Sound {
    Quiet,
    Symbol(u8),
}

// Failed 1 to 5.
#[derive(Clone, Copy)]
pub enum Failure {
    // 1: anything but its own symbol was heard.
    Disturbed,
    // 2: another symbol than 00, FF or AA, or 00 after a wrong CRC.
    WrongAck,
    // 3: FF a second time.
    TwiceNak,
    // 4: AA.
    SynHeard,
    // 5: a broken pair in an answer, and which it was.
    PairBroken(WrongPair),
    // 5 as well, with nothing more to say: an NN above 16 in an answer.
    OverLong,
}

impl Failure {
    // The number that a failed line has.
    pub fn number(self) -> u8
        ensures { result ≡ number_of self }
    {
        match self {
            Failure::Disturbed => 1,
            Failure::WrongAck => 2,
            Failure::TwiceNak => 3,
            Failure::SynHeard => 4,
            Failure::PairBroken(_) | Failure::OverLong => 5,
        }
    }
}

// What a station is told in a slot. The part that it speaks of is the station's own.
#[derive(Clone, Copy)]
pub enum Told {
    Silence,
    Owns,
    Taken,
    Failed(Failure),
    Free,
    FailedFree(Failure),
    Given,
    Answered,
}

impl Phase {
    // Who owns the wire is a function of the phase.
    pub fn owns(self) -> bool
        ensures { result ≡ owner self }
    {
        match self {
            Phase::Silent | Phase::Owing => false,
            Phase::Reading { part, .. } | Phase::Judging { part, .. } => part.is_answer(),
            Phase::Sending { part, .. } | Phase::Awaiting { part, .. } => part.is_master(),
            Phase::Releasing => true,
        }
    }
}
