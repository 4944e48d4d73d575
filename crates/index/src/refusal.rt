// The numbers of refusal that the index has (X3, X4).
#[derive(Drop)]
pub struct Refusal {}

impl Refusal {
    // a code of over 22 bytes
    pub const LONG_CODE: u8 = 50;
    // a new code, and no place that is free
    pub const FULL_INDEX: u8 = 51;
    // a count or the tally would pass 4,294,967,295
    pub const FULL_COUNT: u8 = 52;
    // what is lent is no index
    pub const NO_INDEX: u8 = 53;
}
