// What `counts` prints (02, E9) but for what it reads and writes: its arguments, the scenario followed with a table, the lines.
#![tactic(auto)]

pub mod ask;
pub mod follow;
pub mod lines;
