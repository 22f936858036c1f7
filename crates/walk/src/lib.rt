// The walk: steps until an end.
#![tactic(auto)]

pub mod walk;
