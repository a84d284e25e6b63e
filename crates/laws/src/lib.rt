// What the rooms above share: a count kept to the room, and the laws in proofs/.
#![tactic(auto)]

ghost use Rattle.std.specs.Prelude.{◌≡◌};
ghost use Rattle.laws.specs.AtMost.{at_most};

// A count, but never more than there is room for: `min`, under the name that definitions and promises have for it.
pub fn at_most(n: usize, room: usize) -> usize
    ensures { result ≡ at_most n room }
{
    n.min(room)
}
