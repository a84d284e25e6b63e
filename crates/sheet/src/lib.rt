// The program `values` (02, E2) but for what it reads and writes: a sheet's fields, their form, and a line for each.
#![tactic(auto)]

pub mod decimal;
pub mod field;
pub mod fill;
pub mod form;
pub mod given;
pub mod lines;
