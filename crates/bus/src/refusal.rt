// Why a call is turned down.
ghost use Rattle.std.specs.Prelude.{◌≡◌};
ghost use Rattle.bus.specs.Refusal.{refusal_number};

#[derive(Clone, Copy)]
pub enum Refusal {
    Running,
    NoSuchAddress,
    InUse,
    NoRoom,
    NoMaster,
    NoTarget,
    NoSlave,
    NoCommand,
    TooMuchData,
    OutboxFull,
    BookFull,
}

impl Refusal {
    // Its number in 01's table; 6 is not given any more (02, E8).
    pub fn number(self) -> u32
        ensures { result ≡ refusal_number self }
    {
        match self {
            Refusal::NoMaster => 1,
            Refusal::NoTarget => 2,
            Refusal::NoCommand => 3,
            Refusal::TooMuchData => 4,
            Refusal::OutboxFull => 5,
            Refusal::Running => 7,
            Refusal::NoSuchAddress => 8,
            Refusal::InUse => 9,
            Refusal::NoRoom => 10,
            Refusal::NoSlave => 11,
            Refusal::BookFull => 12,
        }
    }
}
