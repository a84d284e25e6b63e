// What is printed fill after fill of one buffer, until it is over.
ghost use Rattle.std.specs.Prelude.{◌≡◌, Bool, true, false, List, [], ℕ, ◌<◌};
ghost use Rattle.scenario.specs.Series.{Goes};

use crate::pen::Pen;

pub trait Fills: Drop {
    // Of an input, from here on, into a buffer: the bytes of all fills.
    ghost Prints: { List ℕ → Self → List ℕ → List ℕ → Type 0 };

    // Nothing is left to print.
    ghost is_over: { List ℕ → Self → Bool };

    // No more fills than this are to come.
    ghost left: { List ℕ → Self → ℕ };

    fn is_over(&self, s: &[u8]) -> bool
        ensures { result ≡ is_over s.now self.now };

    // One fill of a buffer, from its start.
    fn next(&mut self, s: &[u8], out: &mut Pen)
        ensures prints { is_over s.now self.old ≡ false → (x : List ℕ) → Prints s.now self.old out.old.page x
            → Goes (Prints s.now self.new out.new.page) out.new x }
        ensures nearer { is_over s.now self.old ≡ false → left s.now self.new < left s.now self.old };

    ghost ends: { (s : List ℕ) (g : Self) (page x : List ℕ) → is_over s g ≡ true → Prints s g page x → x ≡ [] };
}
