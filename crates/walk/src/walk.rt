// A walk over a scenario's fields, one moment at a time, with the bus as it then stands. Whoever listens to a scenario does
// so at its moments.
ghost use Rattle.std.specs.Prelude.{◌≡◌};
ghost use Rattle.walk.specs.Walk.{before, within, came_to, slots_left, task_of, ahead_of, stepped, came, next, is_end, passed_by, walked};

use crate::field::Field;
use crate::{apply, field};
use bus::bus::Bus;
use bus::find::Query;
use bus::refusal::Refusal;
use station::phase::Sound;

// How far a scenario has gone.
#[derive(Clone, Copy)]
pub struct Place {
    // Where the next field begins.
    pub at: usize,
    // How many slots of the field under way are still to run; none where no field is under way.
    pub left: Option<u32>,
}

#[derive(Clone, Copy)]
pub enum Moment {
    // A call was made.
    Called(Result<(), Refusal>),
    // A slot told somebody something.
    Told,
    // A field is over.
    Passed,
    // The scenario is over.
    Ended,
}

// What is next: a call, undisturbed slots, a slot heard as given, a field's end, the scenario's end.
#[derive(Clone, Copy)]
pub enum Task {
    Call(Field),
    Slots(u32),
    Hear(Sound),
    Pass,
    End,
}

// What is next, and where its field ends.
#[derive(Clone, Copy)]
pub struct Ahead {
    pub task: Task,
    pub to: usize,
}

fn slots_left(n: u32) -> Task
    ensures { result ≡ slots_left n }
{
    if 0 < n { Task::Slots(n) } else { Task::Pass }
}

fn task_of(f: Field) -> Task
    ensures { result ≡ task_of f }
{
    match f {
        Field::Master(_) | Field::Slave(_) | Field::Reply { .. } | Field::Queue { .. } =>
            Task::Call(f),
        Field::Run(n) => slots_left(n),
        Field::Heard(x) => Task::Hear(Sound::Symbol(x)),
        Field::Quiet => Task::Hear(Sound::Quiet),
    }
}

impl Moment {
    pub fn is_end(self) -> bool
        ensures { result ≡ is_end self }
    {
        matches!(self, Moment::Ended)
    }

    // The end of a field is passed by, unless it is asked for.
    fn passed_by(self, ends: bool) -> bool
        ensures { result ≡ passed_by ends self }
    {
        !ends && matches!(self, Moment::Passed)
    }
}

impl Place {
    // Before the field that begins at a place.
    pub fn before(at: usize) -> Place
        ensures { result ≡ before at }
    {
        Place { at, left: None }
    }

    pub fn within(to: usize, left: u32) -> Place
        ensures { result ≡ within to left }
    {
        Place {
            at: to,
            left: Some(left),
        }
    }

    // Where slots that were run leave it: within the field where they told somebody something, else behind it.
    pub fn came(to: usize, left: u32, told: bool) -> Place
        ensures { result ≡ came_to to left told }
    {
        if told {
            Place::within(to, left)
        } else {
            Place::before(to)
        }
    }

    #[tactic(auto, unfolding(crate::specs::Walk::ahead_of))]
    pub fn ahead(self, s: &[u8]) -> Ahead
        ensures { result ≡ ahead_of self s.now }
    {
        if let Some(left) = self.left {
            return Ahead {
                task: slots_left(left),
                to: self.at,
            };
        }
        if self.at < s.len() {
            let placed = field::field_at(s, self.at);
            return Ahead {
                task: placed.field.map_or(Task::End, task_of),
                to: placed.next,
            };
        }
        Ahead {
            task: Task::End,
            to: self.at,
        }
    }
}

// The last slot told somebody something, or the field is over.
#[tactic(auto, unfolding(crate::specs::Walk::came))]
fn came(bus: &Bus, place: &mut Place, to: usize, left: u32) -> Moment
    ensures { stepped bus.now place.new result ≡ came bus.now to left }
{
    let told = bus.there_is(Query::WasTold);
    *place = Place::came(to, left, told);
    if told { Moment::Told } else { Moment::Passed }
}

// On to the next moment.
#[tactic(auto, unfolding(crate::specs::Walk::next))]
fn next(bus: &mut Bus, place: &mut Place, s: &[u8]) -> Moment
    ensures { stepped bus.new place.new result ≡ next bus.old place.old s.now }
{
    let Ahead { task, to } = place.ahead(s);
    match task {
        Task::Call(f) => {
            *place = Place::within(to, 0);
            Moment::Called(apply::apply(bus, Some(f), s, to))
        }
        Task::Slots(n) => {
            let left = bus.run(n);
            came(bus, place, to, left)
        }
        Task::Hear(x) => {
            bus.slot_heard(x);
            came(bus, place, to, 0)
        }
        Task::Pass => {
            *place = Place::before(to);
            Moment::Passed
        }
        Task::End => {
            *place = Place::before(to);
            Moment::Ended
        }
    }
}

// On to the next moment that is not passed by. Bus and place stay two: `printed`, `so_far` and `told_on` name them singly.
pub fn onward(bus: &mut Bus, place: &mut Place, s: &[u8], ends: bool) -> Moment
    ensures { stepped bus.new place.new result ≡ walked bus.old place.old s.now ends }
{
    loop {
        let moment = next(bus, place, s);
        if !moment.passed_by(ends) {
            return moment;
        }
    }
}
