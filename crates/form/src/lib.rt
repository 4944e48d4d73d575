// The message form of H.PR.I.M. Santé 2.4: its limits and line counts, small and large, its separators, the names of its
// kinds and contexts, and the numbers that reader and writer answer.
#![tactic(auto)]

pub mod context;
pub mod forms;
pub mod kind;
pub mod letters;
pub mod limits;
pub mod number;
pub mod separators;
