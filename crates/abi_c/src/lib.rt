// The functions of the crate `abi` as C links them. Each has the name, the parameters and the contract of the one that it calls: a library exports
// nothing to C, and a static library can be named by no crate, so there are two.
#![tactic(auto)]

pub mod indexing;
pub mod lines;
pub mod looking;
pub mod places;
pub mod reading;
pub mod screening;
pub mod showing;
pub mod values;
pub mod version;
pub mod watching;
pub mod widening;
pub mod writing;
