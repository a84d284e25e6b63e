// The bus as a value.
ghost use Rattle.std.specs.Prelude.{◌≡◌};
ghost use Rattle.bus.specs.Bus.{unseated, powered_on, attached_to, attached_turns, turn_at};

use station::phase::Told;
use station::station::{Station, Turn};

// Array and count, no Vec: refusal 10 comes at 32 stations attached and at nothing else.
#[derive(Clone, Copy)]
pub struct Bus {
    // Each station with what the last slot told it, in attach order.
    pub turns: [Turn; Bus::STATIONS],
    pub count: usize,
    // Slots run, modulo 2^32; that it has run is a fact of its own.
    pub slot: u32,
    pub ran: bool,
    // The generator's count of quiet slots.
    pub quiet: u8,
    // The slot of the latest owns line.
    pub began: u32,
    // One bit for each of the 25 ranks: that master is admitted and has a telegram waiting.
    pub waiting: u32,
}

fn unseated() -> Turn
    ensures { result ≡ unseated }
{
    Turn {
        station: Station::fresh_slave(0),
        told: Told::Silence,
    }
}

impl Bus {
    pub const STATIONS: usize = 32;

    #[tactic(auto, unfolding(crate::specs::Bus::powered_on))]
    pub fn power_on() -> Bus
        ensures { result ≡ powered_on }
    {
        Bus {
            turns: [unseated(); Bus::STATIONS],
            count: 0,
            slot: 0,
            ran: false,
            quiet: 0,
            began: 0,
            waiting: 0,
        }
    }

    // How many stations are attached: never more than there is room for.
    #[tactic(auto, unfolding(crate::specs::Bus::attached_to))]
    pub fn attached(&self) -> usize
        ensures { result ≡ attached_to self.now }
    {
        self.count.min(Bus::STATIONS)
    }

    #[tactic(auto, using(crate::proofs::Loops::attached_fit))]
    pub(crate) fn attached_turns(&self) -> &[Turn]
        ensures { result.now ≡ attached_turns self.now }
    {
        &self.turns[..self.attached()]
    }

    #[tactic(auto, unfolding(crate::specs::Bus::turn_at))]
    pub fn turn(&self, i: usize) -> Turn
        ensures { result ≡ turn_at self.now i }
    {
        if i < Bus::STATIONS {
            self.turns[i]
        } else {
            unseated()
        }
    }
}
