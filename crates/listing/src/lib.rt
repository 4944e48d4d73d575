// The listing of a message (G1, G2), into a lent buffer: what the program `list` prints.
#![tactic(auto)]

mod lines;
pub mod list;
mod put;
