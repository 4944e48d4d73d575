// The buffers that an operation writes: how long they are, and what they hold before it.
use std::alloc::{AllocError, Global};
use table::rows::Entry;

// The longest that a case asks for: bytes of a message or a text area, numbers of segment rows and
// of leaf rows.
pub const BYTES: usize = 1048600;

const SEGMENT_ROWS: usize = 20500;

const LEAF_ROWS: usize = 458800;

// Bytes are filled in modulo the one; row numbers are filled in, and sums are taken, modulo the
// other.
const SMALL: usize = 251;

pub const LARGE: usize = 65521;

// The buffers that a table is filed in. They are made once, when a case first needs them, as long
// as any case asks for, and lent to one case after another, so that none pays for their length.
#[derive(Drop)]
pub struct Buffers {
    text: Vec<u8>,
    segments: Vec<Entry>,
    leaves: Vec<Entry>,
}

// As much of the buffers as a case is lent.
#[derive(Drop)]
pub struct Lent<'a> {
    pub text: &'a mut [u8],
    pub segments: &'a mut [Entry],
    pub leaves: &'a mut [Entry],
}

impl Buffers {
    // The buffers before any case needs them.
    pub fn new(alloc: Global) -> Buffers {
        Buffers {
            text: Vec::new(alloc),
            segments: Vec::new(alloc),
            leaves: Vec::new(alloc),
        }
    }

    // Lends all of them. They hold what earlier cases left there.
    pub fn lend(&mut self) -> Result<Lent<'_>, AllocError> {
        self.text.resize(BYTES, 0)?;
        self.segments.resize(SEGMENT_ROWS, 0)?;
        self.leaves.resize(LEAF_ROWS, 0)?;
        Ok(Lent {
            text: &mut self.text,
            segments: &mut self.segments,
            leaves: &mut self.leaves,
        })
    }

    // Lends as much as a case asks for, and all of a buffer if it asks for more, filled as they are
    // to stand before an operation.
    pub fn lend_filled(&mut self, lengths: [Entry; 3]) -> Result<Lent<'_>, AllocError> {
        let Lent {
            text,
            segments,
            leaves,
        } = self.lend()?;
        let text = cut(text, lengths[0] as usize);
        let segments = cut(segments, lengths[1] as usize);
        let leaves = cut(leaves, lengths[2] as usize);
        fill(text, byte_before);
        fill(segments, number_before);
        fill(leaves, number_before);
        Ok(Lent {
            text,
            segments,
            leaves,
        })
    }
}

// The first elements of a buffer, so many of them, and all if there are no more.
pub fn cut<T>(buffer: &mut [T], length: usize) -> &mut [T] {
    let end = length.min(buffer.len());
    &mut buffer[..end]
}

// An output as long as a case asks for, and as the longest that one asks for, filled.
pub fn filled_output(alloc: Global, length: Entry) -> Result<Vec<u8>, AllocError> {
    let mut output = vec![in alloc; 0; BYTES.min(length as usize)]?;
    fill(&mut output, byte_before);
    Ok(output)
}

// Fills a buffer with what each place is to hold before an operation.
pub fn fill<T: Drop, Before: Fn(usize) -> T>(buffer: &mut [T], before: Before)
    requires { Before.IsAlwaysCallable before }
{
    for (i, element) in buffer.iter_mut().enumerate() {
        *element = before(i);
    }
}

// Byte i of a filled buffer: (7 i + 3) mod 251. The remainder of i gives the same, and its product
// fits.
pub fn byte_before(i: usize) -> u8 {
    ((7 * (i % SMALL) + 3) % SMALL) as u8
}

// The byte that follows a byte of a filled buffer.
pub fn byte_after(byte: u8) -> u8 {
    ((usize::from(byte) + 7) % SMALL) as u8
}

// Row number i of a filled buffer: (13 i + 5) mod 65,521.
pub fn number_before(i: usize) -> Entry {
    ((13 * (i % LARGE) + 5) % LARGE) as Entry
}
