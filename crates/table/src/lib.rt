// The table that a message is filed in (rules T1 to T7), and what it holds.
#![tactic(auto)]

pub mod class;
pub mod rows;

// What a table's rows and text are counted by (T5). A refused call's card is all zero (N3).
#[derive(Clone, Copy)]
pub struct Card {
    // the field separator
    pub separator: u8,
    pub context: u8,
    pub segments: usize,
    pub leaves: usize,
    // bytes of the text area
    pub text: usize,
}
