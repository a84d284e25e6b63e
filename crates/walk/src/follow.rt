// A scenario followed by whoever listens to its slots: an iterator over those that told somebody something.
ghost use Rattle.std.specs.Prelude.{◌≡◌, true, false, [], ◌∷◌};
ghost use Rattle.bus.specs.Bus.{powered_on};
ghost use Rattle.walk.specs.Follow.{told_left, told_on};
ghost use Rattle.walk.specs.Walk.{before};

use crate::walk;
use crate::walk::{Moment, Place};
use bus::bus::Bus;

// What of a scenario is still to be heard: the slots that told somebody something, each as the bus as it then stands.
#[derive(Clone, Copy)]
pub struct Listening<'a> {
    bus: Bus,
    place: Place,
    s: &'a [u8],
}

// On to the next such slot; false where the scenario ends first.
fn next_told(bus: &mut Bus, place: &mut Place, s: &[u8]) -> bool
    ensures told { result ≡ true → told_on bus.old place.old s.now ≡ bus.new ∷ told_on bus.new place.new s.now }
    ensures over { result ≡ false → told_on bus.old place.old s.now ≡ [] }
{
    loop {
        match walk::onward(bus, place, s, false) {
            Moment::Told => return true,
            Moment::Ended => return false,
            Moment::Called(_) | Moment::Passed => {}
        }
    }
}

impl Listening<'_> {
    // All of a scenario, from power-on.
    pub fn to(s: &[u8]) -> Listening<'_>
        ensures { told_left result ≡ told_on powered_on (before 0) s.now }
    {
        Listening {
            bus: Bus::power_on(),
            place: Place::before(0),
            s,
        }
    }
}

impl Iterator for Listening<'_> {
    ghost use Rattle.std.specs.Iterator.{YieldsFirst, item_count};

    type Item = Bus;

    ghost next_gives = { YieldsFirst told_left };

    ghost remaining = { item_count told_left };

    fn next(&mut self) -> Option<Bus> {
        let mut bus = self.bus;
        let mut place = self.place;
        if !next_told(&mut bus, &mut place, self.s) {
            return None;
        }
        self.bus = bus;
        self.place = place;
        Some(bus)
    }
}
