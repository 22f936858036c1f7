// What the program prints, on byte slices: the asks, and the line for each.
#![tactic(auto)]

pub mod asks;
pub mod lines;
mod text;
