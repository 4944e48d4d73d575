// Why a text, a number or an order is refused (D3, D5, D6). What is not refused has the number 0, as everywhere.
// kept (C): the numbers are those of include/sargaceu.h
#[derive(Drop)]
pub struct Refusal {}

impl Refusal {
    pub const NOT_A_NUMBER: u8 = 20;
    // over 15 digits
    pub const MANY_DIGITS: u8 = 21;
    // a number that no text of at most 15 digits says
    pub const OUT_OF_RANGE: u8 = 22;
    // an output under 17 bytes
    pub const NARROW_OUTPUT: u8 = 23;
    // a row that is no counted OBR
    pub const NOT_AN_ORDER: u8 = 24;
    // room for fewer answers than there are numeric results
    pub const LITTLE_ROOM: u8 = 25;
}
