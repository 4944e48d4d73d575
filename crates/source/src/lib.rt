// Where things stand in a message's file: the lines of a row, and line and column of an offset. A row is no line: a segment may go on in addenda,
// and blank lines vanish, so both are counted in the message at hand.
#![tactic(auto)]

pub mod position;
pub mod row;
