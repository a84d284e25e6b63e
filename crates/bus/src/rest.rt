// A way to be fast, no rule; proved equal to it (run.rt): a bus at rest goes on in whole tens.
// A station at rest: an AA was heard, only quiet since, no telegram held, no mark; it reads from the start and is told nothing.
ghost use Rattle.std.specs.Prelude.{◌≡◌};
ghost use Rattle.bus.specs.declared.find.Query.TheVariants.{WasTold, Restless};
ghost use Rattle.bus.specs.Told.{is_told};
ghost use Rattle.bus.specs.Find.{there_is};
ghost use Rattle.bus.specs.Rest.{at_start, from_start, idle, rests};
ghost use Rattle.bus.specs.Strides.{or_meets, by_tens};

use crate::bus::Bus;
use station::phase::{Attempt, Phase, Since, Told};
use station::station::{Station, Turn};
use wire::part::Part;
use wire::reader::{Cursor, Place};

pub(crate) fn is_told(told: Told) -> bool
    ensures { result ≡ is_told told }
{
    !matches!(told, Told::Silence)
}

#[tactic(auto, unfolding(crate::specs::Rest::at_start))]
fn at_start(c: Cursor) -> bool
    ensures { result ≡ at_start c }
{
    c.at == 0 && !c.opened && c.register == 0 && c.nn == 0 && matches!(c.place, Place::Qq)
}

fn from_start(p: Phase) -> bool
    ensures { result ≡ from_start p }
{
    match p {
        Phase::Reading {
            cursor,
            part: Part::MasterPart,
            attempt: Attempt::First,
        } => at_start(cursor),
        _ => false,
    }
}

#[tactic(auto, unfolding(crate::specs::Rest::idle))]
fn idle(s: &Station) -> bool
    ensures { result ≡ idle s.now }
{
    !s.admitted
        && !s.marked
        && matches!(s.since, Since::Nothing)
        && s.outbox.held() == 0
        && from_start(s.phase)
}

#[tactic(auto, unfolding(crate::specs::Rest::rests))]
pub(crate) fn rests(t: &Turn) -> bool
    ensures { result ≡ rests t.now }
{
    !is_told(t.told) && idle(&t.station)
}

// Whether one so far or this one was told something; its twins for who is restless and who owns are gone.
pub fn or_told(already: bool, t: Turn) -> bool
    ensures { result ≡ or_meets WasTold already t }
{
    already || is_told(t.told)
}

impl Bus {
    // Whether the slots that are left go by in tens: ten or more, after an AA and at least one quiet slot, with nobody restless.
    #[tactic(auto, unfolding(crate::specs::Strides::by_tens))]
    pub(crate) fn goes_by_tens(&self, left: u32) -> bool
        ensures { result ≡ by_tens self.now.quiet (there_is self.now Restless) left }
    {
        9 < left
            && self.quiet != 0
            && self.quiet <= Bus::PATIENCE
            && self.attached_turns().iter().all(rests)
    }
}
