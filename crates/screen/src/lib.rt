// What `display` prints (02, E7) but for what it reads and writes: a line when each field is over, filled into a lent buffer.
#![tactic(auto)]

pub mod fill;
pub mod line;
