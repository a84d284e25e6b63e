// When the events of a slot happened, and how long the master had then held the wire (02, E4).
ghost use Rattle.std.specs.Prelude.{◌≡◌};
ghost use Rattle.bus.specs.Told.{is_owns, is_free};
ghost use Rattle.bus.specs.Find.{in_transfer};
ghost use Rattle.bus.specs.Slot.{latest};
ghost use Rattle.bus.specs.Time.{since_owns, elapsed, time_of, time_if_free};

use crate::bus::Bus;
use crate::find::Query;
use station::phase::Told;
use station::station::Turn;

// What every event of a slot carries.
#[derive(Clone, Copy)]
pub struct Time {
    pub slot: u32,
    // From owns to free the slots since the owns line; outside a transfer 0.
    pub elapsed: u32,
}

pub(crate) fn is_owns(told: Told) -> bool
    ensures { result ≡ is_owns told }
{
    matches!(told, Told::Owns)
}

fn is_free(told: Told) -> bool
    ensures { result ≡ is_free told }
{
    matches!(told, Told::Free | Told::FailedFree(_))
}

// It owns the wire, or has left it in this very slot.
#[tactic(auto, unfolding(crate::specs::Find::in_transfer))]
pub(crate) fn in_transfer(t: &Turn) -> bool
    ensures { result ≡ in_transfer t.now }
{
    t.station.phase.owns() || is_free(t.told)
}

// The slot of the latest owns line: this one, if somebody is told owns in it.
pub(crate) fn latest(owns: bool, slot: u32, began: u32) -> u32
    ensures { result ≡ latest owns slot began }
{
    if owns { slot } else { began }
}

impl Bus {
    fn since_owns(&self) -> u32
        ensures { result ≡ since_owns self.now }
    {
        self.slot.wrapping_sub(self.began)
    }

    #[tactic(auto, unfolding(crate::specs::Time::elapsed))]
    fn elapsed(&self) -> u32
        ensures { result ≡ elapsed self.now }
    {
        if self.there_is(Query::InTransfer) {
            self.since_owns()
        } else {
            0
        }
    }

    #[tactic(auto, unfolding(crate::specs::Time::time_of))]
    pub fn time(&self) -> Time
        ensures { result ≡ time_of self.now }
    {
        Time {
            slot: self.slot,
            elapsed: self.elapsed(),
        }
    }

    // A way to be fast, no rule: where a free line tells that the slot is inside a transfer, nobody is asked.
    pub fn time_if_free(&self) -> Time
        ensures { result ≡ time_if_free self.now }
    {
        Time {
            slot: self.slot,
            elapsed: self.since_owns(),
        }
    }
}
