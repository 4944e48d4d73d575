// What comes on standard input: the pieces of cases.
use crate::buffers::BYTES;
use crate::stop::Stop;
use std::alloc::Global;
use std::io::Read;
use table::rows::Entry;

// The most numbers and bytes that a case has, both counted together. A message in parts counts as
// one number.
const MOST: usize = 65518;

// The most parts that a message has.
const PARTS: Entry = 8;

// As many numbers as are read at once.
const BLOCK: usize = 256;

// Takes in pieces, and holds how many more numbers and bytes the case may have.
#[derive(Drop)]
pub struct CaseReader<R: Read + Drop> {
    alloc: Global,
    reader: R,
    room: usize,
}

impl<R: Read + Drop> CaseReader<R> {
    pub fn new(alloc: Global, reader: R) -> CaseReader<R> {
        CaseReader {
            alloc,
            reader,
            room: MOST,
        }
    }

    // The allocator for what a case needs.
    pub fn alloc(&self) -> Global {
        self.alloc
    }

    // The number that the next case begins with.
    pub fn operation(&mut self) -> Result<Entry, Stop> {
        self.begin();
        self.count()
    }

    // From here on as many numbers and bytes may come as a case has.
    pub fn begin(&mut self) {
        self.room = MOST;
    }

    // A number: four bytes, the lowest first.
    pub fn number(&mut self) -> Result<Entry, Stop> {
        self.take(1)?;
        self.count()
    }

    // So many numbers.
    pub fn numbers<const N: usize>(&mut self) -> Result<[Entry; N], Stop> {
        self.take(N)?;
        let mut numbers = [0; N];
        self.fill(&mut numbers)?;
        Ok(numbers)
    }

    // A row of numbers, behind their count.
    pub fn row(&mut self) -> Result<Vec<Entry>, Stop> {
        let count = self.count()? as usize;
        self.take(count)?;
        let mut row = vec![in self.alloc; 0; count]?;
        self.fill(&mut row)?;
        Ok(row)
    }

    // Bytes, behind their count.
    pub fn bytes(&mut self) -> Result<Vec<u8>, Stop> {
        let count = self.count()? as usize;
        self.take(count)?;
        self.exactly(count)
    }

    // A whole number with its sign: eight bytes, the lowest first, two's complement.
    pub fn whole(&mut self) -> Result<i64, Stop> {
        let mut eight = [0; 8];
        self.take(eight.len())?;
        self.reader.read_exact(&mut eight)?;
        Ok(i64::from_le_bytes(eight))
    }

    // A message of a case of its own: bytes, as many as the longest message has.
    pub fn message(&mut self) -> Result<Vec<u8>, Stop> {
        let count = self.count()? as usize;
        if BYTES < count {
            return Err(Stop::TooLong);
        }
        self.exactly(count)
    }

    // A message in parts: how many parts there are, and then each with how often it stands.
    pub fn parts(&mut self) -> Result<Vec<u8>, Stop> {
        let parts = self.count()?;
        if PARTS < parts {
            return Err(Stop::TooLong);
        }
        // room for the longest at once: to grow would take twice the memory
        let mut message = Vec::with_capacity(self.alloc, BYTES)?;
        for _ in 0..parts {
            self.part(&mut message)?;
        }
        Ok(message)
    }

    // Takes in a part, and lays it behind a message as often as it stands. It has room there at
    // least once, also where it stands not at all.
    fn part(&mut self, message: &mut Vec<u8>) -> Result<(), Stop> {
        let times = self.count()? as usize;
        let count = self.count()? as usize;
        let from = message.len();
        lengthen(message, count)?;
        if let Some(part) = message.as_mut_slice().get_mut(from..) {
            self.reader.read_exact(part)?;
        }
        repeat(message, from, times)
    }

    // Counts numbers or bytes that the case has, before they come.
    pub fn take(&mut self, count: usize) -> Result<(), Stop> {
        self.room = self.room.checked_sub(count).ok_or(Stop::TooLong)?;
        Ok(())
    }

    // A number that is no piece, but says what follows.
    fn count(&mut self) -> Result<Entry, Stop> {
        let mut four = [0; 4];
        self.reader.read_exact(&mut four)?;
        Ok(Entry::from_le_bytes(four))
    }

    // As many numbers as there is room for.
    fn fill(&mut self, numbers: &mut [Entry]) -> Result<(), Stop> {
        for block in numbers.chunks_mut(BLOCK) {
            self.fill_block(block)?;
        }
        Ok(())
    }

    // A block of numbers, with one read. The input is left at the byte behind them.
    fn fill_block(&mut self, numbers: &mut [Entry]) -> Result<(), Stop> {
        let mut bytes = [0; 4 * BLOCK];
        let end = numbers.len().saturating_mul(4).min(bytes.len());
        self.reader.read_exact(&mut bytes[..end])?;
        for (number, four) in numbers.iter_mut().zip(bytes.chunks_exact(4)) {
            if let [a, b, c, d] = *four {
                *number = Entry::from_le_bytes([a, b, c, d]);
            }
        }
        Ok(())
    }

    // So many bytes.
    fn exactly(&mut self, count: usize) -> Result<Vec<u8>, Stop> {
        let mut bytes = vec![in self.alloc; 0; count]?;
        self.reader.read_exact(&mut bytes)?;
        Ok(bytes)
    }
}

// Lengthens a message by so many bytes, for which it has room.
fn lengthen(message: &mut Vec<u8>, count: usize) -> Result<(), Stop> {
    if BYTES.saturating_sub(message.len()) < count {
        return Err(Stop::TooLong);
    }
    message.resize(message.len().saturating_add(count), 0)?;
    Ok(())
}

// Lays what stands in a message from a place on there so often, end to end.
fn repeat(message: &mut Vec<u8>, from: usize, times: usize) -> Result<(), Stop> {
    if times == 0 {
        message.truncate(from);
        return Ok(());
    }
    let count = message.len().saturating_sub(from);
    lengthen(message, count.saturating_mul(times - 1))?;
    if let Some(bytes) = message.as_mut_slice().get_mut(from..) {
        lay_copies(bytes, count);
    }
    Ok(())
}

// Lays the part with which the bytes begin, and which has so many of them, behind itself until the
// bytes end. Each turn doubles what is laid, so there are no more turns than a number has bits.
fn lay_copies(bytes: &mut [u8], count: usize) {
    let mut laid = count;
    for _ in 0..usize::BITS {
        let Some((before, behind)) = bytes.split_at_mut_checked(laid) else {
            return;
        };
        lay(behind, before);
        laid = laid.saturating_mul(2);
    }
}

// Lays bytes over others, as far as both go.
fn lay(bytes: &mut [u8], new: &[u8]) {
    for (byte, new) in bytes.iter_mut().zip(new) {
        *byte = *new;
    }
}
