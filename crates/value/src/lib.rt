// Numeric results as numbers (rules D1 to D6): what the text of a number says, the shortest text for a number, and the numbers of an order.
// It stands above the library: of a table it knows only what the crates below promise.
#![tactic(auto)]

mod digits;
mod numeral;
pub mod reading;
pub mod refusal;
mod result;
pub mod results;
mod sign;
pub mod writing;
