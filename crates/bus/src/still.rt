// A way to be fast, no rule; proved equal to it: a station that the slot leaves as it is, and one that says nothing, are
// passed by, and who owes no answer is ready as it is.
ghost use Rattle.std.specs.Prelude.{◌≡◌};
ghost use Rattle.bus.specs.Still.{skips_quiet, skips_symbol, skips, still, mute, owes};
ghost use Rattle.bus.specs.Slot.{said_by, turned};

use crate::rest;
use station::phase::{Phase, Since, Sound};
use station::station::{Station, Turn};

// Quiet tells these nothing; a reader that has not acknowledged yet has then done so.
fn skips_quiet(p: Phase) -> bool
    ensures { result ≡ skips_quiet p }
{
    match p {
        Phase::Silent | Phase::Reading { .. } | Phase::Awaiting { .. } => true,
        Phase::Judging { acknowledged, .. } => acknowledged,
        _ => false,
    }
}

// A symbol tells the silent nothing, once it no longer counts.
fn skips_symbol(p: Phase, since: Since) -> bool
    ensures { result ≡ skips_symbol p since }
{
    matches!(p, Phase::Silent) && matches!(since, Since::ManyOrNoSyn)
}

fn skips(heard: Sound, p: Phase, since: Since) -> bool
    ensures { result ≡ skips heard p since }
{
    match heard {
        Sound::Quiet => skips_quiet(p),
        Sound::Symbol(s) => s != Station::SYN && skips_symbol(p, since),
    }
}

// Whether the slot leaves it as it is.
#[tactic(auto, unfolding(crate::specs::Still::still))]
pub(crate) fn still(t: &Turn, heard: Sound) -> bool
    ensures { result ≡ still heard t.now }
{
    !rest::is_told(t.told) && !t.station.admitted && skips(heard, t.station.phase, t.station.since)
}

// Whether it says nothing.
#[tactic(auto, unfolding(crate::specs::Still::mute))]
fn mute(t: &Turn) -> bool
    ensures { result ≡ mute t.now }
{
    !t.station.admitted && skips_quiet(t.station.phase)
}

fn owes(p: Phase) -> bool
    ensures { result ≡ owes p }
{
    matches!(p, Phase::Owing)
}

// What a station says, made ready for the slot.
#[tactic(auto, using(crate::proofs::PassedBy::mute_says, crate::proofs::PassedBy::ready_so))]
pub(crate) fn said_by(t: &Turn) -> Sound
    ensures { result ≡ said_by t.now }
{
    if mute(t) {
        Sound::Quiet
    } else if owes(t.station.phase) {
        t.station.ready().say()
    } else {
        t.station.say()
    }
}

// What a station makes of what is heard.
#[tactic(auto, using(crate::proofs::PassedBy::ready_so))]
pub(crate) fn turned(t: &Turn, heard: Sound) -> Turn
    ensures { result ≡ turned heard t.now }
{
    if owes(t.station.phase) {
        t.station.ready().hear(heard)
    } else {
        t.station.hear(heard)
    }
}
