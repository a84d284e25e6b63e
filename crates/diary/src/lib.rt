// The program `wirelog` (02, E1) but for what it reads and writes: its argument, the scenario followed, the records as lines.
#![tactic(auto)]

pub mod follow;
pub mod length;
pub mod lines;
pub mod opening;
