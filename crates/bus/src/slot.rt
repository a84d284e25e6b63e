// One slot: what all hear, the AND of what is said or the disturbance, and what each station makes of it.
ghost use Rattle.std.specs.Prelude.{◌≡◌};
ghost use Rattle.bus.specs.declared.find.Query.TheVariants.{WasTold};
ghost use Rattle.bus.specs.Find.{there_is};
ghost use Rattle.bus.specs.Slot.{wired, generator_says, generator_next, spoken_with, spoken, slot_heard, slot_run};

use crate::bus::Bus;
use crate::{next, rest, still, time};
use station::phase::Sound;
use station::station::{Station, Turn};

// The bus is LOW-active: all hear the bitwise AND.
pub(crate) fn wired(a: Sound, b: Sound) -> Sound
    ensures { result ≡ wired a b }
{
    match (a, b) {
        (Sound::Quiet, _) => b,
        (_, Sound::Quiet) => a,
        (Sound::Symbol(x), Sound::Symbol(y)) => Sound::Symbol(x & y),
    }
}

// The generator sends AA after nine quiet slots in a row.
#[tactic(auto, unfolding(crate::specs::Slot::generator_says))]
pub(crate) fn generator_says(quiet: u8) -> Sound
    ensures { result ≡ generator_says quiet }
{
    if quiet < Bus::PATIENCE {
        Sound::Quiet
    } else {
        Sound::Symbol(Station::SYN)
    }
}

// Its count is 0 after any heard symbol and after a slot in which it sent.
pub(crate) fn generator_next(quiet: u8, heard: Sound) -> u8
    ensures { result ≡ generator_next quiet heard }
{
    match heard {
        Sound::Quiet if quiet < Bus::PATIENCE => quiet + 1,
        _ => 0,
    }
}

// The word with what each of the stations says.
pub(crate) fn spoken_with(word: Sound, turns: &[Turn]) -> Sound
    ensures { result ≡ spoken_with word turns.now }
{
    turns.iter().fold(word, |w, t| wired(w, still::said_by(t)))
}

impl Bus {
    // Quiet slots in a row that the generator waits for.
    pub(crate) const PATIENCE: u8 = 9;

    // An undisturbed slot, and whether it tells somebody something.
    #[inline(always)]
    #[tactic(auto, unfolding(crate::specs::Slot::slot_run))]
    pub fn slot(&mut self) -> bool
        ensures bus { self.new ≡ slot_run self.old }
        ensures told { result ≡ there_is self.new WasTold }
    {
        let word = self.spoken();
        self.slot_heard(word)
    }

    // What the stations and the generator put on the wire.
    #[tactic(auto, unfolding(crate::specs::Slot::spoken))]
    pub fn spoken(&self) -> Sound
        ensures { result ≡ spoken self.now }
    {
        spoken_with(generator_says(self.quiet), self.attached_turns())
    }

    // A slot that all hear as given, and whether it tells somebody something. Inlined, since a call of it would clear its large
    // locals in each slot.
    #[inline(always)]
    pub fn slot_heard(&mut self, heard: Sound) -> bool
        ensures bus { self.new ≡ slot_heard self.old heard }
        ensures told { result ≡ there_is self.new WasTold }
    {
        let n = self.attached();
        let mut told = false;
        let mut owns = false;
        let mut waiting: u32 = 0;
        for t in &mut self.turns[..n] {
            if still::still(t, heard) {
                continue;
            }
            *t = still::turned(t, heard);
            told |= rest::is_told(t.told);
            owns |= time::is_owns(t.told);
            waiting = next::with_bid(waiting, t);
        }
        self.slot = self.slot.wrapping_add(1);
        self.ran = true;
        self.quiet = generator_next(self.quiet, heard);
        self.began = time::latest(owns, self.slot, self.began);
        self.waiting = waiting;
        told
    }
}
