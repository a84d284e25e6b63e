// Values in the eBUS application types (02, E2): a code of the wire read as a value, a value written as its code, and blocks of shares.
// A float is given for a code only where it is the coded number exactly, and a code for a float only where the float is its value exactly.
#![tactic(auto)]

pub mod block;
pub mod read;
pub mod steps;
pub mod value;
pub mod write;
