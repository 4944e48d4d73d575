// The functions that C and Rust call, each under the name and with the parameters that include/sargaceu.h states. They take any bytes, any
// numbers and any lengths: nothing is required of a caller, so every contract says what happens for all of them.
#![tactic(auto)]

mod answer;
mod card;
mod forms;
pub mod indexing;
pub mod lines;
pub mod looking;
pub mod places;
pub mod reading;
pub mod screening;
pub mod showing;
pub mod values;
pub mod version;
pub mod watching;
pub mod widening;
pub mod writing;
