// Who is next: one bit for each of the 25 ranks, and the master whose bit is the lowest (02, E7).
#![tactic(auto)]

ghost use Rattle.std.specs.Prelude.{◌≡◌};
ghost use Rattle.address.specs.Master.{rank_of};
ghost use Rattle.ranks.specs.Bits.{bit_of, with_rank, least_of};

// Rank 0 has the lowest bit; an address without a rank has none.
#[tactic(auto, using(address::proofs::Ranks::rank_below, crate::proofs::Digits::shifted))]
fn bit_of(a: u8) -> u32
    ensures { result ≡ bit_of (rank_of a) }
{
    match address::rank_of(a) {
        Some(rank) => 1 << rank,
        None => 0,
    }
}

// The bits and that of this master.
#[tactic(auto, unfolding(crate::specs::Bits::with_rank))]
pub fn with_rank(bits: u32, a: u8) -> u32
    ensures { result ≡ with_rank bits a }
{
    bits | bit_of(a)
}

// The least rank is the count of trailing zeros.
#[tactic(auto, unfolding(crate::specs::Bits::least_of))]
pub fn least(bits: u32) -> Option<u8>
    ensures { result ≡ least_of bits }
{
    if bits == 0 {
        None
    } else {
        Some(address::master_at(bits.trailing_zeros()))
    }
}
