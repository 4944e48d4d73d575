// The numbers that come back (N1): 0 accepts, every other one refuses.
#[derive(Drop)]
pub struct Number {}

impl Number {
    pub const ACCEPTED: u8 = 0;
    // a lent buffer is short
    pub const SHORT_BUFFER: u8 = 1;

    pub const LONG_MESSAGE: u8 = 2;

    pub const BROKEN_HEADER: u8 = 3;
    // a byte below 32 inside a line
    pub const CONTROL_BYTE: u8 = 4;

    pub const LONG_LINE: u8 = 5;
    // the last line is not closed by a CR
    pub const OPEN_LINE: u8 = 6;

    pub const MANY_SEGMENTS: u8 = 7;

    pub const UNKNOWN_KIND: u8 = 8;

    pub const NO_CONTEXT: u8 = 9;
    // a kind stands where it may not, or the order breaks off before L
    pub const MISPLACED: u8 = 10;

    pub const MANY_LEAVES: u8 = 11;

    pub const SHORT_OUTPUT: u8 = 12;
    // the table is one that no message reads to
    pub const NO_TABLE: u8 = 13;
}
