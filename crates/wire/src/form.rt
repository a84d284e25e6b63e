// The wire form of a part, in the wire buffer.
ghost use Rattle.std.specs.Prelude.{◌≡◌, ◌+◌, ◌<◌, ◌≤◌, [], ◌∷◌};
ghost use Rattle.wire.specs.Pair.{expand_one};
ghost use Rattle.wire.specs.Form.{room, holding, held_by, appended, count_of, bytes_of, form, telegram_form, answer_form};

use crate::part::{Load, Telegram};
use crate::symbol::Kind;
use crate::{part, symbol};

// The symbols that go out: the first `len` of `bytes`.
// Array and count, no Vec: `telegram_form` cannot fail, and 01's list has no refusal for want of memory.
#[derive(Clone, Copy)]
pub struct Wire {
    pub bytes: [u8; Wire::ROOM],
    pub len: usize,
}

impl Wire {
    pub const ROOM: usize = 39;

    // One symbol more.
    #[tactic(auto, unfolding(crate::specs::Form::appended))]
    fn push(mut self, s: u8) -> Wire
        requires { self.len < room }
        ensures { result ≡ appended self (s ∷ []) }
    {
        self.bytes[self.len] = s;
        self.len += 1;
        self
    }

    // One byte more, expanded.
    #[tactic(auto, using(crate::proofs::Buffer::appended_len, crate::proofs::Buffer::appended_two), unfolding(crate::specs::Pair::expand_one))]
    fn put(self, b: u8) -> Wire
        requires { self.len + 1 < room }
        ensures { result ≡ appended self (expand_one b) }
    {
        match symbol::kind_of(b) {
            Kind::Syn => self.push(0xA9).push(0x01),
            Kind::Escape => self.push(0xA9).push(0x00),
            Kind::Count | Kind::Plain => self.push(b),
        }
    }
}

// How many bytes a load carries: never more than it has room for.
#[tactic(auto, unfolding(crate::specs::Form::count_of))]
pub fn count_of(load: Load) -> u8
    ensures { result ≡ count_of load }
{
    part::fitting(load.nn as usize)
}

// NN, the data and the CRC, behind what stands before NN.
#[tactic(auto, using(crate::proofs::Filling::count_at_most))]
fn part_form(head: Wire, load: Load) -> Wire
    requires { (head ≡ holding (held_by head)) × (head.len ≤ 4) }
    ensures { result ≡ holding (form (held_by head) (bytes_of load)) }
{
    let nn = count_of(load);
    let mut w = head.push(nn);
    for &b in &load.bytes[..nn as usize] {
        w = w.put(b);
    }
    let crc = crc::of(&w.bytes[..w.len]);
    w.put(crc)
}

#[tactic(auto, using(crate::proofs::Buffer::appended_len, crate::proofs::Buffer::holding_len))]
pub fn telegram_form(t: Telegram) -> Wire
    ensures { result ≡ holding (telegram_form t) }
{
    let head = empty().push(t.qq).push(t.zz).push(t.pb).push(t.sb);
    part_form(head, t.load)
}

pub fn answer_form(load: Load) -> Wire
    ensures { result ≡ holding (answer_form load) }
{
    part_form(empty(), load)
}

#[tactic(auto, unfolding(crate::specs::Form::holding))]
pub fn empty() -> Wire
    ensures { result ≡ holding [] }
{
    Wire {
        bytes: [0; Wire::ROOM],
        len: 0,
    }
}
