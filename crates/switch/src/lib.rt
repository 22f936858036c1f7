// One step of a switch: the checks, the tag cell, the published choice; and the door for C.
#![tactic(auto)]

pub mod cell;
pub mod checks;
mod choice;
pub mod door;
pub mod ports;
pub mod step;
