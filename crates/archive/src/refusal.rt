// The number that comes back for an archived table alone (B2). The others are the reader's (form::number).
// kept (C): the number is that of include/sargaceu.h
#[derive(Drop)]
pub struct Refusal {}

impl Refusal {
    // no reader gave the table
    pub const NEVER_READ: u8 = 46;
}
