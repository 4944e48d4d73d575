// What comes on standard input behind the longest message: read to be counted, and kept nowhere.
use std::io;
use std::io::Read;

// How often is read at most: input that never ends is not counted to its end.
const READS: usize = 65536;

// The bytes that a read asks for.
const CHUNK: usize = 65536;

// How many bytes the whole input has.
#[derive(Clone, Copy)]
pub enum Length {
    Exactly(usize),
    // it had not ended where counting stopped
    AtLeast(usize),
}

// The length of an input of which so many bytes were read, and which may have more.
pub fn count_input(reader: &mut impl Read, read: usize, more: bool) -> io::Result<Length> {
    let mut bytes = read;
    if !more {
        return Ok(Length::Exactly(bytes));
    }
    let mut chunk = [0; CHUNK];
    for _ in 0..READS {
        let count = reader.read(&mut chunk)?;
        if count == 0 {
            return Ok(Length::Exactly(bytes));
        }
        bytes = bytes.saturating_add(count);
    }
    Ok(Length::AtLeast(bytes))
}
