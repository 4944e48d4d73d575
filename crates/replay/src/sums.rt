// The sum by which a line shows the whole of a buffer.
use crate::buffers::LARGE;

// The sum of a buffer.
pub fn sum<T: Copy + Into<u32>>(elements: &[T]) -> u16 {
    sum_on(0, elements)
}

// A sum carried on over more elements, two at a time, with one remainder for both.
pub fn sum_on<T: Copy + Into<u32>>(before: u16, elements: &[T]) -> u16 {
    elements.chunks(2).fold(before, |sum, pair| match pair {
        [one, other] => summed_two(sum, (*one).into(), (*other).into()),
        [one] => summed(sum, (*one).into()),
        _ => sum,
    })
}

// The sum with one element more.
pub fn summed(sum: u16, element: u32) -> u16 {
    ((31 * u64::from(sum) + u64::from(element) + 1) % LARGE as u64) as u16
}

// The sum with two elements more.
fn summed_two(sum: u16, one: u32, other: u32) -> u16 {
    let before = 31 * 31 * u64::from(sum) + 31 * (u64::from(one) + 1);
    ((before + u64::from(other) + 1) % LARGE as u64) as u16
}
