// One station on the wire, slot by slot: what it says, and what it makes of what all hear.
#![tactic(auto)]

mod admission;
mod fail;
mod hear;
mod judge;
pub mod outbox;
pub mod phase;
mod read;
pub mod replies;
mod send;
pub mod station;
