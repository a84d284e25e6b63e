// A block of shares that make 100 percent.
ghost use Rattle.std.specs.Prelude.{◌≡◌, ◌≤◌, length, take};
ghost use Rattle.value.specs.Answers.{fault_number};
ghost use Rattle.value.specs.Block.{is_valueless, is_absent, any_shows, sum_of, shares_of, block_of};

use crate::read::{percent, read_share};
use crate::value::Value;

// The shares in percent; behind the last one stand zeros. An array and a count, since nothing is allocated here.
#[derive(Clone, Copy)]
pub struct Shares {
    pub count: usize,
    pub percents: [f32; Shares::MOST],
}

impl Shares {
    pub const MOST: usize = 8;

    // The shares alone.
    pub fn percents(&self) -> &[f32]
        ensures { result.now ≡ take self.now.count self.now.percents }
    {
        &self.percents[..self.count.min(Shares::MOST)]
    }
}

// Why a block is refused: it gives no shares. Each variant's number is the one that it is named by.
#[derive(Clone, Copy, PartialEq, Eq, Debug)]
pub enum BlockError {
    // No share at all, more than 8, or one whose code has no value.
    NoBlock = 17,
    ShareMissing = 18,
    NotAHundred = 19,
}

impl BlockError {
    pub fn number(self) -> u32
        ensures { result ≡ fault_number self }
    {
        self as u32
    }
}

fn sum(codes: &[u8]) -> u32
    requires { length codes.now ≤ 8 }
    ensures { result ≡ sum_of codes.now }
{
    codes.iter().map(|&b| u32::from(b)).sum()
}

#[tactic(auto, using(crate::proofs::Blocks::share_more, crate::proofs::Blocks::shares_all), unfolding(crate::specs::Block::shares_of))]
fn in_percent(codes: &[u8]) -> Shares
    requires { length codes.now ≤ 8 }
    ensures { result ≡ shares_of codes.now }
{
    let mut percents = [0.0; Shares::MOST];
    for (i, &b) in codes.iter().enumerate() {
        percents[i] = percent(b);
    }
    Shares {
        count: codes.len(),
        percents,
    }
}

// Some share's code has no value.
fn any_valueless(codes: &[u8]) -> bool
    ensures { result ≡ any_shows is_valueless codes.now }
{
    codes.iter().any(|&b| read_share(b).is_none())
}

// Some share is missing.
fn any_absent(codes: &[u8]) -> bool
    ensures { result ≡ any_shows is_absent codes.now }
{
    codes
        .iter()
        .any(|&b| read_share(b).is_some_and(Value::is_missing))
}

// Of several faults the one with the lowest number is named, whichever share has it.
#[tactic(auto, unfolding(crate::specs::Block::block_of))]
pub fn accept(codes: &[u8]) -> Result<Shares, BlockError>
    ensures { result ≡ block_of codes.now }
{
    if codes.is_empty() || Shares::MOST < codes.len() || any_valueless(codes) {
        Err(BlockError::NoBlock)
    } else if any_absent(codes) {
        Err(BlockError::ShareMissing)
    } else if sum(codes) == 200 {
        Ok(in_percent(codes))
    } else {
        Err(BlockError::NotAHundred)
    }
}
