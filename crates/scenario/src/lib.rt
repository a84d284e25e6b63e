// The bench's lines as bytes, and its whole output, filled into a lent buffer.
#![tactic(auto)]

pub mod fill;
pub mod lines;
pub mod pen;
pub mod series;
