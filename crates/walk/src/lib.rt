// A scenario's fields (01, "Bench program"), its form, and the walk over its fields, one moment at a time.
#![tactic(auto)]

pub mod apply;
pub mod field;
pub mod follow;
pub mod form;
pub mod walk;
