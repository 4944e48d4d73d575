// The numbers of a verdict (R5). What keeps all rules has the number 0, as everywhere, and what is
// no table 13. From 31 on they are the numbers of the rules, in the rules' order.
#[derive(Drop)]
pub struct Refusal {}

impl Refusal {
    // an ORU is asked for
    pub const NOT_A_REPORT: u8 = 30;
    // a P without its name in use (8.6.1), first name (8.6.2), birth name (8.7), telephone (8.13)
    // or postal code (8.11.5)
    pub const NO_NAME: u8 = 31;

    pub const NO_FIRST_NAME: u8 = 32;

    pub const NO_BIRTH_NAME: u8 = 33;

    pub const NO_TELEPHONE: u8 = 34;

    pub const NO_POSTAL_CODE: u8 = 35;
    // an OBR without its number (9.4.2) or the time of its sample (9.8)
    pub const NO_ORDER_NUMBER: u8 = 36;

    pub const NO_SAMPLE_TIME: u8 = 37;
    // an H without its laboratory (7.5.1)
    pub const NO_LABORATORY: u8 = 38;
    // a P that has not exactly one OBX with this code (10.4.1)
    pub const NOT_ONE_PAYS: u8 = 39;

    pub const NOT_ONE_TYPOR: u8 = 40;

    pub const NOT_ONE_PROSS: u8 = 41;

    pub const NOT_ONE_FINGE: u8 = 42;
    // an OBX with another value (10.6.1) than its code, or the system of its code, lets it have
    pub const WRONG_TYPOR: u8 = 43;

    pub const WRONG_PROSS: u8 = 44;

    pub const WRONG_RESULT: u8 = 45;
}
