// Lines of output: each is built in a room of its own and written at once. A write that fails is
// passed over.
use std::fmt;
use std::fmt::{Display, Write};

// The bytes that a line has room for: two for each of the most columns that can be asked for, and
// some for a long word at its end. What does not fit is left out.
pub const ROOM: usize = 4096;

// What stands at the end of a line that is cut, and the columns that it takes.
const CUT: &str = "..";

const CUT_COLUMNS: usize = 2;

// A line of output as far as it has come.
#[derive(Drop)]
pub struct Line {
    room: [u8; ROOM],
    // the bytes that it has
    length: usize,
    // the columns that they take
    columns: usize,
    // the bytes of it that stay where it has to be cut
    kept: usize,
    // the columns that it may have
    width: usize,
}

impl Line {
    // A line that is never cut.
    pub fn whole() -> Line {
        Line::within(ROOM)
    }

    // A line that may have so many columns.
    pub fn within(width: usize) -> Line {
        Line {
            room: [0; ROOM],
            length: 0,
            columns: 0,
            kept: 0,
            width,
        }
    }

    // How many columns its bytes take.
    pub fn columns(&self) -> usize {
        self.columns
    }

    // Whether it has passed its width, so that nothing more of it would be seen.
    pub fn is_past(&self) -> bool {
        self.width < self.columns
    }

    // Words of our own, a column for each byte.
    pub fn put(&mut self, words: &str) {
        self.put_letters(words.as_bytes());
    }

    // The same of a name's letters.
    pub fn put_letters(&mut self, letters: &[u8]) {
        for letter in letters {
            self.put_column(*letter);
            self.end_whole();
        }
    }

    // The same of words with values between them: `write!` calls this.
    pub fn write_fmt<D: Display + Drop>(&mut self, words: D) {
        let _ = Write::write_fmt(self, words);
    }

    // A byte so many times.
    pub fn put_times(&mut self, b: u8, times: usize) {
        for _ in 0..times {
            self.put_column(b);
            self.end_whole();
        }
    }

    // Bytes that take a column each, and belong together with what follows.
    pub fn put_columns(&mut self, bytes: &[u8]) {
        for b in bytes {
            self.put_column(*b);
        }
    }

    // A character, in one column.
    pub fn put_char(&mut self, c: char) {
        for b in c.encode_utf8(&mut [0; 4]).as_bytes() {
            self.put_byte(*b);
        }
        self.columns = self.columns.saturating_add(1);
        self.end_whole();
    }

    // Ends a character, or a sign that takes several columns: where the line up to here leaves room
    // for the dots of a cut, it stays whole.
    pub fn end_whole(&mut self) {
        if self.columns.saturating_add(CUT_COLUMNS) <= self.width {
            self.kept = self.length;
        }
    }

    // A byte that takes a column.
    fn put_column(&mut self, b: u8) {
        self.put_byte(b);
        self.columns = self.columns.saturating_add(1);
    }

    // A byte that takes no column of its own; nothing where the line is full.
    fn put_byte(&mut self, b: u8) {
        if self.length < ROOM {
            self.room[self.length] = b;
            self.length += 1;
        }
    }

    // Writes the line out, whole.
    // kept (speed): the line is lent, since its room would be copied where it is handed on
    pub fn write_whole(&mut self, rt: &impl Print) {
        self.put_byte(b'\n');
        if let Some(bytes) = self.room.get(..self.length) {
            let _ = rt.write_all(bytes);
        }
    }

    // Writes the line out, cut to its width, with dots where something of it is left out.
    pub fn write_cut(&mut self, rt: &impl Print) {
        if self.is_past() {
            self.length = self.kept;
            self.put(CUT);
        }
        self.write_whole(rt);
    }
}

impl Write for Line {
    fn write_str(&mut self, words: &str) -> fmt::Result {
        self.put(words);
        Ok(())
    }
}
