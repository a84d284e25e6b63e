// What a field asks of the bus.
ghost use Rattle.std.specs.Prelude.{◌≡◌};
ghost use Rattle.walk.specs.Apply.{bytes_from, applied, applied_if};
ghost use Rattle.bus.specs.Bus.{answer};

use crate::field::Field;
use bus::bus::Bus;
use bus::refusal::Refusal;
use station::phase::Sound;

// The bytes from a place to another; none where they do not lie so.
#[tactic(auto, unfolding(crate::specs::Apply::bytes_from))]
fn bytes_of(s: &[u8], from: usize, to: usize) -> &[u8]
    ensures { result.now ≡ bytes_from s.now from to }
{
    s.get(from..to).unwrap_or(&[])
}

// A field that ends at `to`; where there is no field nothing is asked.
#[tactic(auto, unfolding(bus::specs::Bus::done))]
pub fn apply(bus: &mut Bus, f: Option<Field>, s: &[u8], to: usize) -> Result<(), Refusal>
    ensures { answer bus.new result ≡ applied_if f bus.old s.now to }
{
    match f {
        Some(f) => ask(bus, f, s, to),
        None => Ok(()),
    }
}

// A run is not applied here: the walk runs it, and stops where somebody is told something.
#[tactic(auto, unfolding(crate::specs::Apply::applied, bus::specs::Bus::done))]
fn ask(bus: &mut Bus, f: Field, s: &[u8], to: usize) -> Result<(), Refusal>
    ensures { answer bus.new result ≡ applied bus.old f s.now to }
{
    match f {
        Field::Master(a) => return bus.attach_master(a),
        Field::Slave(a) => return bus.attach_slave(a),
        Field::Reply {
            slave,
            pb,
            sb,
            from,
        } => return bus.reply(slave, pb, sb, bytes_of(s, from, to)),
        Field::Queue {
            qq,
            zz,
            pb,
            sb,
            from,
        } => return bus.queue(qq, zz, pb, sb, bytes_of(s, from, to)),
        Field::Run(_) => {}
        Field::Heard(x) => {
            bus.slot_heard(Sound::Symbol(x));
        }
        Field::Quiet => {
            bus.slot_heard(Sound::Quiet);
        }
    }
    Ok(())
}
