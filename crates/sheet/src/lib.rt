// The cabling sheet and the fault list: reading, checking, and the questions that the layers above ask of them.
#![tactic(auto)]

pub mod cables;
pub mod check;
pub mod door;
pub mod faults;
mod listing;
pub mod numbers;
pub mod order;
pub mod ranges;
mod reading;
pub mod records;
pub mod refusals;
pub mod rules;
mod starts;
mod used;
