// The expansion undone: what a symbol of data or CRC stands for.
ghost use Rattle.std.specs.Prelude.{◌≡◌};
ghost use Rattle.wire.specs.Pair.{undo, undo_first, undo_second};

use crate::symbol;
use crate::symbol::Kind;

// A9 with neither 00, 01 nor AA behind it (02, E6).
#[derive(Clone, Copy)]
pub struct WrongPair {
    // Where its A9 stands, in wire symbols from the part's first, which is 0.
    pub position: u8,
    // The symbol after it.
    pub symbol: u8,
}

#[derive(Clone, Copy)]
pub enum Undone {
    Byte(u8),
    Opens,
    // AA stands for nothing, also right after an A9: it ends the reading.
    Ends,
    Broken(WrongPair),
}

// `opened`: an A9 stands before the symbol; `at`: where the symbol stands in its part, from 0.
#[tactic(auto, unfolding(crate::specs::Pair::undo))]
pub fn undo(opened: bool, at: u8, symbol: u8) -> Undone
    ensures { result ≡ undo opened at symbol }
{
    if opened {
        second(at, symbol)
    } else {
        first(symbol)
    }
}

#[tactic(auto, unfolding(crate::specs::Pair::undo_first))]
fn first(symbol: u8) -> Undone
    ensures { result ≡ undo_first symbol }
{
    match symbol::kind_of(symbol) {
        Kind::Syn => Undone::Ends,
        Kind::Escape => Undone::Opens,
        Kind::Count | Kind::Plain => Undone::Byte(symbol),
    }
}

#[tactic(auto, unfolding(crate::specs::Pair::undo_second))]
fn second(at: u8, symbol: u8) -> Undone
    ensures { result ≡ undo_second at symbol }
{
    match symbol {
        0x00 => Undone::Byte(0xA9),
        0x01 => Undone::Byte(0xAA),
        0xAA => Undone::Ends,
        // Its A9 stands one place before it.
        _ => Undone::Broken(WrongPair {
            position: at.saturating_sub(1),
            symbol,
        }),
    }
}
