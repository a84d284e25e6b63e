// The first attached station of which something holds.
ghost use Rattle.std.specs.Prelude.{◌≡◌};
ghost use Rattle.bus.specs.Find.{slave_address, is_master_at, meets, first_of, there_is};

use crate::bus::Bus;
use crate::{rest, time};
use station::station::{Station, Turn};

// What is asked of a station. An enum and no closure: definitions and theorems (`first_of`, `there_is`) name its cases.
#[derive(Clone, Copy)]
pub enum Query {
    // Whether it is the master attached with this address.
    Master(u8),
    // Whether this is its slave address.
    Slave(u8),
    // Whether it answers to this address at all.
    Holder(u8),
    // Whether the last slot told it something.
    WasTold,
    // Whether it is anything but at rest.
    Restless,
    // Whether the last slot told it owns.
    ToldOwns,
    // Whether it owns the wire, or left it in the last slot.
    InTransfer,
}

// The address at which a station is a slave.
#[tactic(auto, unfolding(crate::specs::Find::slave_address))]
fn slave_address(s: &Station) -> u8
    ensures { result ≡ slave_address s.now }
{
    if s.master {
        address::slave_of(s.address)
    } else {
        s.address
    }
}

#[tactic(auto, unfolding(crate::specs::Find::is_master_at))]
fn is_master_at(s: &Station, a: u8) -> bool
    ensures { result ≡ is_master_at s.now a }
{
    s.master && s.address == a
}

fn meets(t: &Turn, q: Query) -> bool
    ensures { result ≡ meets q t.now }
{
    match q {
        Query::Master(a) => is_master_at(&t.station, a),
        Query::Slave(a) => slave_address(&t.station) == a,
        Query::Holder(a) => t.station.is_own(a),
        Query::WasTold => rest::is_told(t.told),
        Query::Restless => !rest::rests(t),
        Query::ToldOwns => time::is_owns(t.told),
        Query::InTransfer => time::in_transfer(t),
    }
}

impl Bus {
    pub fn first(&self, q: Query) -> Option<usize>
        ensures { result ≡ first_of self.now q }
    {
        self.attached_turns().iter().position(|t| meets(t, q))
    }

    #[tactic(auto, unfolding(crate::specs::Find::there_is))]
    pub fn there_is(&self, q: Query) -> bool
        ensures { result ≡ there_is self.now q }
    {
        self.first(q).is_some()
    }
}
