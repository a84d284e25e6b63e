// A master or a slave is attached: 7, 8, 9, 10 in that order.
ghost use Rattle.std.specs.Prelude.{◌≡◌, true, false};
ghost use Rattle.bus.specs.Bus.{answer};
ghost use Rattle.bus.specs.Attach.{no_such_address, occupied, newcomer, takes_seat, attaches};

use crate::bus::Bus;
use crate::find::Query;
use crate::refusal::Refusal;
use address::Role;
use station::phase::Told;
use station::station::{Station, Turn};

// A master has one of the 25, a slave one of the 228.
#[tactic(auto, unfolding(crate::specs::Attach::no_such_address))]
fn no_such_address(a: u8, master: bool) -> bool
    ensures { result ≡ no_such_address a master }
{
    match address::role_of(a) {
        Role::Master => !master,
        Role::Slave => master,
        Role::Broadcast | Role::Never => true,
    }
}

#[tactic(auto, unfolding(crate::specs::Attach::newcomer))]
fn newcomer(a: u8, master: bool) -> Turn
    ensures { result ≡ newcomer a master }
{
    let station = if master {
        Station::fresh_master(a)
    } else {
        Station::fresh_slave(a)
    };
    Turn {
        told: Told::Silence,
        station,
    }
}

impl Bus {
    // Two names over one function, and both are promised (docs/PROMISES.md): what a call attaches is read where it is called.
    pub fn attach_master(&mut self, a: u8) -> Result<(), Refusal>
        ensures { answer self.new result ≡ attaches self.old a true }
    {
        self.attach(a, true)
    }

    pub fn attach_slave(&mut self, a: u8) -> Result<(), Refusal>
        ensures { answer self.new result ≡ attaches self.old a false }
    {
        self.attach(a, false)
    }

    #[tactic(auto, unfolding(crate::specs::Attach::attaches, crate::specs::Bus::refused_by))]
    fn attach(&mut self, a: u8, master: bool) -> Result<(), Refusal>
        ensures { answer self.new result ≡ attaches self.old a master }
    {
        if self.ran {
            return Err(Refusal::Running);
        }
        if no_such_address(a, master) {
            return Err(Refusal::NoSuchAddress);
        }
        if self.occupied(a, master) {
            return Err(Refusal::InUse);
        }
        self.seat(a, master)
    }

    // Whether an address that it would answer to is in use; a master would answer to two.
    #[tactic(auto, unfolding(crate::specs::Attach::occupied))]
    fn occupied(&self, a: u8, master: bool) -> bool
        ensures { result ≡ occupied self.now a master }
    {
        self.there_is(Query::Holder(a))
            || master && self.there_is(Query::Holder(address::slave_of(a)))
    }

    #[tactic(auto, unfolding(crate::specs::Attach::takes_seat, crate::specs::Bus::refused_by, crate::specs::Bus::done))]
    fn seat(&mut self, a: u8, master: bool) -> Result<(), Refusal>
        ensures { answer self.new result ≡ takes_seat self.old a master }
    {
        if self.count >= Bus::STATIONS {
            return Err(Refusal::NoRoom);
        }
        self.turns[self.count] = newcomer(a, master);
        self.count += 1;
        Ok(())
    }
}
