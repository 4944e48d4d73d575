// Bytes of a message as a terminal may show them (ISO 8859-1): a letter is a column, and a byte
// that would do something to the terminal is a sign in brackets, such as <LF>, that takes several.
use crate::output::Line;

const NUL: u8 = 0;

pub const TAB: u8 = 9;

pub const LF: u8 = 10;

pub const VT: u8 = 11;

pub const CR: u8 = 13;

const ESC: u8 = 27;

pub const FS: u8 = 28;

// Bytes below this are control bytes (L1).
pub const SPACE: u8 = 32;

const HEX: &[u8; 16] = b"0123456789ABCDEF";

impl Line {
    // A text as it is shown, up to where the line has passed its width.
    pub fn put_text(&mut self, text: &[u8]) {
        for b in text {
            if self.is_past() {
                return;
            }
            self.put_shown(*b);
        }
    }

    // A byte as it is shown.
    pub fn put_shown(&mut self, b: u8) {
        let letter = char::from(b);
        if letter.is_control() {
            self.put_sign(b);
        } else {
            self.put_char(letter);
        }
    }

    // The sign of a byte that is not shown as it is: its name, or else its two hexadecimal digits.
    // It stays whole where the line is cut.
    fn put_sign(&mut self, b: u8) {
        self.put_columns(b"<");
        match name_of(b) {
            Some(name) => self.put_columns(name.as_bytes()),
            None => self.put_columns(&[HEX[(b / 16) as usize], HEX[(b % 16) as usize]]),
        }
        self.put_columns(b">");
        self.end_whole();
    }
}

// The name of a control byte that has one here.
fn name_of(b: u8) -> Option<&'static str> {
    match b {
        NUL => Some("NUL"),
        TAB => Some("TAB"),
        LF => Some("LF"),
        VT => Some("VT"),
        CR => Some("CR"),
        ESC => Some("ESC"),
        FS => Some("FS"),
        _ => None,
    }
}

// How many columns a byte takes as it is shown.
pub fn count_columns(b: u8) -> usize {
    if !char::from(b).is_control() {
        return 1;
    }
    // the brackets, and a name or two digits between them
    match b {
        NUL | TAB | ESC => 5,
        _ => 4,
    }
}
