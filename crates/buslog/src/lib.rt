// The wire's own diary (02, E1): each event of a slot as one tagged record, the latest that fit, in a buffer that its user lends.
#![tactic(auto)]

pub mod log;
mod note;
mod read;
mod record;
mod ring;
