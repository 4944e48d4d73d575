// The answers that are lent to operations 1023 and 11023, each in three buffers: what they hold
// before a case, and their sum.
use crate::buffers::{LARGE, fill, number_before};
use crate::sums::summed;
use std::alloc::{AllocError, Global};
use table::rows::Entry;

// The most that a case asks for.
const ANSWERS: usize = 300;

#[derive(Drop)]
pub struct Answers {
    pub numbers: Vec<u8>,
    pub wholes: Vec<i64>,
    pub decimals: Vec<u8>,
}

impl Answers {
    // So many answers as they are to stand before a case: number 0, whole number (13 i + 5) mod
    // 65,521, decimals i mod 16.
    pub fn new(alloc: Global, asked: Entry) -> Result<Answers, AllocError> {
        let count = ANSWERS.min(asked as usize);
        let mut answers = Answers {
            numbers: vec![in alloc; 0; count]?,
            wholes: vec![in alloc; 0; count]?,
            decimals: vec![in alloc; 0; count]?,
        };
        fill(&mut answers.wholes, |i| i64::from(number_before(i)));
        fill(&mut answers.decimals, |i| (i % 16) as u8);
        Ok(answers)
    }

    // The sum of them. An answer has four elements: its number, 1 if the whole number is below 0
    // and else 0, the whole number without its sign, the decimals.
    pub fn sum(&self) -> u16 {
        let mut sum = 0;
        let parts = self.numbers.iter().zip(&self.wholes).zip(&self.decimals);
        for ((number, whole), decimals) in parts {
            sum = summed(sum, u32::from(*number));
            sum = summed(sum, u32::from(*whole < 0));
            sum = summed(sum, (whole.unsigned_abs() % LARGE as u64) as u32);
            sum = summed(sum, u32::from(*decimals));
        }
        sum
    }
}
