// What goes over the wire: symbol kinds, the expansion, the wire form of a telegram and of an answer, and the reader.
#![tactic(auto)]

pub mod form;
pub mod pair;
pub mod part;
pub mod reader;
pub mod symbol;
