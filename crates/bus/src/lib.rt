// Up to 32 stations on one wire: the calls of its users, the generator, a slot, and a run of slots.
#![tactic(auto)]

mod attach;
pub mod bus;
pub mod find;
pub mod next;
mod queue;
pub mod refusal;
mod reply;
pub mod rest;
pub mod run;
mod slot;
mod still;
pub mod time;
