// Who is next (02, E7): the bits of those who wait are kept by queue and by slot; asking reads them and visits no station.
ghost use Rattle.std.specs.Prelude.{◌≡◌};
ghost use Rattle.bus.specs.Waiting.{with_bid, next_of};

use crate::bus::Bus;
use station::station::Turn;

// The bits and that of a station's rank, if it is admitted and has a telegram waiting.
#[tactic(auto, unfolding(crate::specs::Waiting::with_bid))]
pub(crate) fn with_bid(bits: u32, t: &Turn) -> u32
    ensures { result ≡ with_bid bits t.now }
{
    if t.station.bids() {
        ranks::with_rank(bits, t.station.address)
    } else {
        bits
    }
}

impl Bus {
    // The master that will own the wire after this SYN.
    #[tactic(auto, unfolding(crate::specs::Waiting::next_of))]
    pub fn next(&self) -> Option<u8>
        ensures { result ≡ next_of self.now }
    {
        ranks::least(self.waiting)
    }
}
