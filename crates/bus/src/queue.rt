// A telegram is queued at its source: 1, 2, 3, 4, 5 in that order.
ghost use Rattle.std.specs.Prelude.{◌≡◌, ℕ};
ghost use Rattle.bus.specs.declared.bus.Bus.{Bus};
ghost use Rattle.bus.specs.Bus.{answer, turn_at};
ghost use Rattle.bus.specs.Queue.{unusable, no_target, no_command, holds, queues_from, queues, held, put_back};

use crate::bus::Bus;
use crate::find::Query;
use crate::next;
use crate::refusal::Refusal;
use address::Role;
use station::station::{Station, Turn};
use wire::part::{Load, Telegram};

// A9 and AA stand for nothing as ZZ, PB or SB.
#[tactic(auto, unfolding(crate::specs::Queue::unusable))]
pub(crate) fn unusable(s: u8) -> bool
    ensures { result ≡ unusable s }
{
    matches!(address::role_of(s), Role::Never)
}

#[tactic(auto, unfolding(crate::specs::Queue::no_command))]
pub(crate) fn no_command(pb: u8, sb: u8) -> bool
    ensures { result ≡ no_command pb sb }
{
    unusable(pb) || unusable(sb)
}

#[tactic(auto, unfolding(crate::specs::Queue::no_target))]
fn no_target(source: &Station, zz: u8) -> bool
    ensures { result ≡ no_target source.now zz }
{
    unusable(zz) || source.is_own(zz)
}

impl Bus {
    // The source's seat is worked on by itself: the same in whichever seat of whichever bus it stands.
    #[tactic(auto, using(crate::proofs::RefusedQueue::found_seat), unfolding(crate::specs::Queue::queues, crate::specs::Bus::refused_by))]
    pub fn queue(&mut self, qq: u8, zz: u8, pb: u8, sb: u8, bytes: &[u8]) -> Result<(), Refusal>
        ensures { answer self.new result ≡ queues self.old qq zz pb sb bytes.now }
    {
        let Some(i) = self.first(Query::Master(qq)) else {
            return Err(Refusal::NoMaster);
        };
        let mut source = self.turns[i];
        hold(&mut source, zz, pb, sb, bytes)?;
        self.turns[i] = source;
        self.waiting = next::with_bid(self.waiting, &source);
        Ok(())
    }
}

// 2, 3, 4, then 5.
#[tactic(auto, using(crate::proofs::PutBack::turned_down), unfolding(crate::specs::Queue::queues_from))]
fn hold(t: &mut Turn, zz: u8, pb: u8, sb: u8, bytes: &[u8]) -> Result<(), Refusal>
    ensures { (b : Bus) (i : ℕ) → turn_at b i ≡ t.old
        → queues_from b i zz pb sb bytes.now ≡ put_back b i (held t.new result) }
{
    if no_target(&t.station, zz) {
        return Err(Refusal::NoTarget);
    }
    if no_command(pb, sb) {
        return Err(Refusal::NoCommand);
    }
    if Load::MOST < bytes.len() {
        return Err(Refusal::TooMuchData);
    }
    let telegram = Telegram {
        qq: t.station.address,
        zz,
        pb,
        sb,
        load: Load::of(bytes),
    };
    accept(t, telegram)
}

// 5: 4 telegrams held, one in transfer included; else it is held behind them.
fn accept(t: &mut Turn, telegram: Telegram) -> Result<(), Refusal>
    ensures { (b : Bus) (i : ℕ) → turn_at b i ≡ t.old
        → holds b i telegram ≡ put_back b i (held t.new result) }
{
    if t.station.outbox.accept(telegram).is_err() {
        return Err(Refusal::OutboxFull);
    }
    Ok(())
}
