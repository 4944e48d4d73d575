// The index of a case, in two buffers as `index` lays it: places of codes, and how many codes are
// named with their counts behind.
use crate::buffers::{byte_after, byte_before, fill, number_before};
use crate::input::CaseReader;
use crate::stop::Stop;
use crate::sums::{sum, sum_on, summed};
use index::PLACE;
use std::alloc::{AllocError, Global};
use std::io::Read;
use table::rows::Entry;

// The most places that a case asks for.
const PLACES: Entry = 600;

#[derive(Drop)]
pub struct Index {
    pub codes: Vec<u8>,
    pub counts: Vec<Entry>,
}

impl Index {
    // Takes in an index: how many codes it names, how many places it has, how many entries follow,
    // and then each entry. Everything else is filled before. Each entry is as long as a case at
    // most.
    pub fn take_in<R: Read + Drop>(input: &mut CaseReader<R>) -> Result<Index, Stop> {
        let [named, places, entries] = input.numbers::<3>()?;
        if PLACES < places || places < entries {
            return Err(Stop::TooLong);
        }
        let mut index = Index::filled(input.alloc(), named, places)?;
        for i in 0..entries {
            input.begin();
            let length = input.number()?;
            let code = input.bytes()?;
            let count = input.number()?;
            index.put(i, length, &code, count);
        }
        Ok(index)
    }

    // An index that names so many codes and has so many places.
    fn filled(alloc: Global, named: Entry, places: Entry) -> Result<Index, AllocError> {
        let places = places as usize;
        let mut codes = vec![in alloc; 0; PLACE * places]?;
        let mut counts = vec![in alloc; named; 1 + places]?;
        fill_codes(&mut codes);
        fill(&mut counts[1..], number_before);
        Ok(Index { codes, counts })
    }

    // Puts an entry at place i. Its bytes may be others than its length says, and lie there as far
    // as the place has room.
    fn put(&mut self, i: Entry, length: Entry, code: &[u8], count: Entry) {
        let at = PLACE * i as usize;
        if let Some(place) = self.codes.as_mut_slice().get_mut(at..at + PLACE) {
            lay(place, (length % 256) as u8, code);
        }
        if let Some(old) = self.counts.get_mut(i as usize + 1) {
            *old = count;
        }
    }

    // How many codes are named, and the sums of lengths, codes and counts.
    pub fn put_sums(&self, rt: &impl Print) {
        let named = self.counts.first().copied().unwrap_or(0);
        let _ = print!(rt;
            " {named} {} {} {}",
            sum_lengths(&self.codes),
            sum_codes(&self.codes, named as usize),
            sum(self.counts.get(1..).unwrap_or(&[]))
        );
    }
}

// Lays a length and a code's bytes at a place, as far as it has room.
fn lay(place: &mut [u8], length: u8, code: &[u8]) {
    if let Some((first, rest)) = place.split_first_mut() {
        *first = length;
        for (byte, new) in rest.iter_mut().zip(code) {
            *byte = *new;
        }
    }
}

// Fills places of codes as they are to stand before an operation. The lengths of the places are
// filled as one buffer, and the bytes behind them as another.
fn fill_codes(codes: &mut [u8]) {
    let mut next = byte_before(0);
    for (i, place) in codes.chunks_exact_mut(PLACE).enumerate() {
        if let Some((length, code)) = place.split_first_mut() {
            *length = byte_before(i);
            next = fill_on(code, next);
        }
    }
}

// Fills bytes on from one, and answers the one behind them.
fn fill_on(bytes: &mut [u8], first: u8) -> u8 {
    let mut next = first;
    for byte in bytes {
        *byte = next;
        next = byte_after(next);
    }
    next
}

// The sum of the lengths at all places.
fn sum_lengths(codes: &[u8]) -> u16 {
    codes.chunks_exact(PLACE).fold(0, |sum, place| {
        summed(sum, place.first().copied().map_or(0, u32::from))
    })
}

// The sum of the named codes' bytes, end to end, as far as there are places.
fn sum_codes(codes: &[u8], named: usize) -> u16 {
    codes
        .chunks_exact(PLACE)
        .take(named)
        .fold(0, |sum, place| sum_on(sum, code_in(place)))
}

// The code at a place: as long as its length says, and at most as long as the place has room for.
fn code_in(place: &[u8]) -> &[u8] {
    match place.split_first() {
        Some((length, code)) => &code[..code.len().min(*length as usize)],
        None => &[],
    }
}
