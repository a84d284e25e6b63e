// A run of undisturbed slots. The rule is `runs` alone; the loop here is a way to be fast, proved equal to it: the bus stays
// where it is from slot to slot, stations that a slot leaves as they are are passed by, and a bus at rest goes on in whole tens.
ghost use Rattle.std.specs.Prelude.{◌≡◌};
ghost use Rattle.bus.specs.Run.{stopped, runs};

use crate::bus::Bus;

impl Bus {
    // Undisturbed slots, one after the other, until none is left or somebody is told something.
    // It answers how many are left.
    pub fn run(&mut self, slots: u32) -> u32
        ensures { stopped self.new result ≡ runs slots self.old }
    {
        let mut left = slots;
        // No `for`: a stride takes whole tens off at once.
        while 0 < left {
            if self.goes_by_tens(left) {
                self.slot = self.slot.wrapping_add(left - left % 10);
                self.ran = true;
                self.waiting = 0;
                left %= 10;
                continue;
            }
            left -= 1;
            if self.slot() {
                break;
            }
        }
        left
    }
}
