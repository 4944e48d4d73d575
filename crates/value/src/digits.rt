// How long a number may be (D1, D5).

// Digits of the longest number.
pub(crate) const DIGITS: usize = 15;

// The least number that has more digits than that.
pub(crate) const TOO_LARGE: u64 = 1000000000000000;

// Bytes of the longest text that is written: a sign, a point and the digits.
pub(crate) const ROOM: usize = DIGITS + 2;
