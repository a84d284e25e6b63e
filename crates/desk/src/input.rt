// What a program reads before it runs: a buffer, and how much of it the reader filled.
ghost use Rattle.std.specs.Prelude.{◌≡◌, ◌≤◌, [], take, IfErr, OnOk};
ghost use Rattle.desk.specs.Playing.{Reads, IsOfInput};

use crate::failure::Failure;
use std::io::Read;

// One byte more than a scenario may have tells a file that is too long.
pub const INPUT: usize = 65537;

#[derive(Drop)]
pub struct Input {
    bytes: [u8; INPUT],
    used: usize,
    ghost within: { used ≤ 65537 },
}

impl Input {
    // Nothing is read yet.
    pub fn new() -> Input
        ensures { take result.used result.bytes ≡ [] }
    {
        Input {
            bytes: [0; INPUT],
            used: 0,
        }
    }

    // In place of what was read before; where it fails nothing is given. Lent, since 64 KB handed out in a Result are copied.
    pub fn read<R: Read>(&mut self, from: &mut R) -> Result<(), Failure>
        ensures ok { OnOk result (Reads (R.remaining from.old) (R.remaining from.new) (take self.new.used self.new.bytes)) }
        ensures err { IfErr result (λ f. IsOfInput f × (take self.new.used self.new.bytes ≡ [])) }
    {
        self.used = 0;
        self.used = crate::read(from, &mut self.bytes).map_err(Failure::Input)?;
        Ok(())
    }

    pub fn given(&self) -> &[u8]
        ensures { result.now ≡ take self.now.used self.now.bytes }
    {
        &self.bytes[..self.used]
    }
}
