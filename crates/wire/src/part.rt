// A master part and an answer as their users have them.
ghost use Rattle.std.specs.Prelude.{◌≡◌};
ghost use Rattle.wire.specs.Load.{empty_load, fitting, load_of};
ghost use Rattle.wire.specs.Part.{is_master_part, is_answer_part};

// Which part of a transfer: the master sends the one and reads the other.
#[derive(Clone, Copy)]
pub enum Part {
    MasterPart,
    AnswerPart,
}

// What a part carries: the first `nn` of `bytes`.
// Array and count, as in Wire; the definitions also say what a count above 16 means (`count_of`).
#[derive(Clone, Copy)]
pub struct Load {
    pub nn: u8,
    pub bytes: [u8; Load::MOST],
}

// A master part. An answer is a load alone.
#[derive(Clone, Copy)]
pub struct Telegram {
    pub qq: u8,
    pub zz: u8,
    pub pb: u8,
    pub sb: u8,
    pub load: Load,
}

// How many of so many bytes a load has room for.
#[tactic(auto, using(laws::proofs::AtMost::at_most_room), unfolding(crate::specs::Load::fitting))]
pub(crate) fn fitting(len: usize) -> u8
    ensures { result ≡ fitting len }
{
    laws::at_most(len, Load::MOST) as u8
}

impl Part {
    // Two tests of one case each, as `is_some` and `is_none` are.
    pub fn is_master(self) -> bool
        ensures { result ≡ is_master_part self }
    {
        matches!(self, Part::MasterPart)
    }

    pub fn is_answer(self) -> bool
        ensures { result ≡ is_answer_part self }
    {
        matches!(self, Part::AnswerPart)
    }
}

impl Load {
    // A part carries at most 16 data bytes.
    pub const MOST: usize = 16;

    pub fn empty() -> Load
        ensures { result ≡ empty_load }
    {
        Load {
            nn: 0,
            bytes: [0; Load::MOST],
        }
    }

    // The bytes of a slice, as far as there is room.
    #[tactic(auto, using(crate::proofs::Fitting::fits_sixteen, crate::proofs::Fitting::fits_length))]
    pub fn of(s: &[u8]) -> Load
        ensures { result ≡ load_of s.now }
    {
        let nn = fitting(s.len());
        let n = nn as usize;
        let mut bytes = [0; Load::MOST];
        bytes[..n].copy_from_slice(&s[..n]);
        Load { nn, bytes }
    }
}
