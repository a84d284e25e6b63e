// A slave's reply is set: 11, 3, 4, 12 in that order.
ghost use Rattle.std.specs.Prelude.{◌≡◌, ℕ};
ghost use Rattle.bus.specs.declared.bus.Bus.{Bus};
ghost use Rattle.bus.specs.Bus.{answer, turn_at, with_turn};
ghost use Rattle.bus.specs.Reply.{writes, replies_from, replies};

use crate::bus::Bus;
use crate::find::Query;
use crate::queue;
use crate::refusal::Refusal;
use station::replies::Reply;
use station::station::Turn;
use wire::part::Load;

impl Bus {
    // The slave's seat is worked on by itself: the same in whichever seat of whichever bus it stands.
    #[tactic(auto, using(crate::proofs::RefusedQueue::found_seat), unfolding(crate::specs::Reply::replies, crate::specs::Bus::refused_by))]
    pub fn reply(&mut self, slave: u8, pb: u8, sb: u8, bytes: &[u8]) -> Result<(), Refusal>
        ensures { answer self.new result ≡ replies self.old slave pb sb bytes.now }
    {
        let Some(i) = self.first(Query::Slave(slave)) else {
            return Err(Refusal::NoSlave);
        };
        let mut seat = self.turns[i];
        keep(&mut seat, pb, sb, bytes)?;
        self.turns[i] = seat;
        Ok(())
    }
}

// 3, 4, then 12.
#[tactic(auto, using(crate::proofs::PutBack::as_it_was), unfolding(crate::specs::Reply::replies_from))]
fn keep(t: &mut Turn, pb: u8, sb: u8, bytes: &[u8]) -> Result<(), Refusal>
    ensures { (b : Bus) (i : ℕ) → turn_at b i ≡ t.old
        → replies_from b i pb sb bytes.now ≡ answer (with_turn b i t.new) result }
{
    if queue::no_command(pb, sb) {
        return Err(Refusal::NoCommand);
    }
    if Load::MOST < bytes.len() {
        return Err(Refusal::TooMuchData);
    }
    let reply = Reply {
        pb,
        sb,
        load: Load::of(bytes),
    };
    write(t, reply)
}

// 12.
fn write(t: &mut Turn, reply: Reply) -> Result<(), Refusal>
    ensures { (b : Bus) (i : ℕ) → turn_at b i ≡ t.old
        → writes b i reply ≡ answer (with_turn b i t.new) result }
{
    if t.station.replies.write(reply).is_err() {
        return Err(Refusal::BookFull);
    }
    Ok(())
}
