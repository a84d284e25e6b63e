// A program's arguments, each copied into a lent buffer. The first, number 0, is the program's name.
ghost use Rattle.std.specs.Prelude.{◌≡◌, ◌≤◌, length, take};

use std::env::FillError;
use std::rt::Env;

// No longer argument can be a path.
pub const WORD: usize = 4096;

// How many there are, the program's name among them.
pub fn count(rt: &impl Env) -> usize {
    // By number: the runtime gives an argument by its number and in no other way.
    for i in 0..usize::MAX {
        let mut nothing = [];
        if let Err(FillError::NotPresent) = rt.arg(i, &mut nothing) {
            return i;
        }
    }
    usize::MAX
}

// Puts an argument at the buffer's start and answers its length; one that is missing or does not fit is as an empty one.
pub fn get(rt: &impl Env, i: usize, word: &mut [u8; WORD]) -> usize
    ensures { result ≤ length word.new }
{
    rt.arg(i, word).unwrap_or(0)
}

// An argument as a value.
#[derive(Drop)]
pub struct Word {
    bytes: [u8; WORD],
    used: usize,
    ghost within: { used ≤ 4096 },
}

impl Word {
    // No more bytes than the word has; which they are no contract can say, since the runtime promises only their number.
    pub fn get(rt: &impl Env, i: usize) -> Word
        ensures { result.used ≤ length result.bytes }
    {
        let mut bytes = [0; WORD];
        let used = get(rt, i, &mut bytes);
        Word { bytes, used }
    }

    pub fn given(&self) -> &[u8]
        ensures { result.now ≡ take self.now.used self.now.bytes }
    {
        &self.bytes[..self.used]
    }
}
