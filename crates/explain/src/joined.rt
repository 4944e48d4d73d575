// Going through a row's joined segment from byte to byte (A1 to A3): its kind, its fields, and the
// names in them.
ghost use Rattle.std.specs.Prelude.{◌≡◌, ℕ, ◌≤◌, ◌<◌, ◌-◌, Some};
ghost use Rattle.std.specs.Iterator.{at_most};

use crate::text::SPACE;
use form::kind::Kind;
use form::letters::Letters;
use line::finder::low_end;
use source::row::row_at;

// The A and the separator that an addendum begins with (A1).
const ADDENDUM: usize = 2;

// A row's joined segment from a place of the message on, up to the row's end.
#[derive(Clone, Copy)]
pub struct Segment<'a> {
    pub message: &'a [u8],
    // the field separator
    pub field: u8,
    pub start: usize,
    pub end: usize,
}

// The bytes of a joined segment, each with its place: line ends and what an addendum begins with
// are passed.
#[derive(Drop)]
pub struct Joined<'a> {
    message: &'a [u8],
    at: usize,
    end: usize,
}

impl Iterator for Joined<'_> {
    type Item = (usize, u8);

    ghost remaining = { λ s. at_most (s.end - s.at) };

    fn next(&mut self) -> Option<(usize, u8)> {
        let (place, b) = joined_at(self.message, self.at, self.end)?;
        self.at = place + 1;
        Some((place, b))
    }
}

// The first byte of a row's joined segment that stands at a place or behind it, with its place;
// none where the row ends before.
fn joined_at(message: &[u8], at: usize, end: usize) -> Option<(usize, u8)>
    ensures { (place : ℕ) → (b : ℕ) → result ≡ Some (place, b) → (at ≤ place) × (place < end) }
{
    let mut place = at;
    // kept (plainer): how far a step goes is told by the control bytes that stand there
    while place < end {
        let b = *message.get(place)?;
        if SPACE <= b {
            return Some((place, b));
        }
        place = low_end(message, place).saturating_add(ADDENDUM);
    }
    None
}

impl<'a> Segment<'a> {
    // The segment of the row that begins at a place.
    pub fn at(message: &'a [u8], field: u8, start: usize) -> Segment<'a> {
        let end = row_at(message, start).next;
        Segment {
            message,
            field,
            start,
            end,
        }
    }

    // Its bytes.
    pub fn bytes(self) -> Joined<'a> {
        Joined {
            message: self.message,
            at: self.start,
            end: self.end,
        }
    }

    // Its letters up to the next field separator.
    pub fn letters(self) -> Letters {
        let field = self.field;
        self.bytes()
            .take_while(|(_, b)| *b != field)
            .fold(Letters::of(b""), |name, (_, b)| name.with(b))
    }

    // The number of the kind that it begins with, or 0 where that is unknown (S1).
    // kept (C): `Kind::of` gives a number, and `Watcher::tell_by` takes it
    pub fn kind(self) -> u8 {
        let name = self.letters();
        Kind::of(name.length, name.first, name.second, name.third)
    }

    // How many fields it has.
    pub fn count_fields(self) -> usize {
        let field = self.field;
        let separators = self.bytes().filter(|(_, b)| *b == field).count();
        separators.saturating_add(1)
    }

    // What it has from a field on, its fields counted from 1; none where it has no such field, or
    // has it empty at its end. An empty field before that begins with the separator behind it.
    pub fn from_field(self, number: usize) -> Option<Segment<'a>> {
        let mut left = number.saturating_sub(1);
        for (start, b) in self.bytes() {
            if left == 0 {
                return Some(Segment { start, ..self });
            }
            if b == self.field {
                left -= 1;
            }
        }
        None
    }
}
