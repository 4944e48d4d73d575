// Where a refused message is wrong: the byte, the bytes to mark, and the row.
use crate::edges::{text_end, text_from};
use crate::going::row_of;
use crate::header::first_flaw;
use crate::joined::Segment;
use crate::leaves::row_past;
use crate::rest::Length;
use form::forms::Form;
use form::number::Number;
use form::separators::{Header, Separators};
use source::row::row_place;

// The field of the first segment that names the context, 7.7.
pub const CONTEXT: usize = 7;

// A refusal: what the reader answers, what it judged by, and what else is known of the input.
// kept (C): `number` is what `read::read` answers, and `form::number` has no enum of the numbers
#[derive(Clone, Copy)]
pub struct Refusal {
    pub number: u8,
    pub place: usize,
    pub form: Form,
    // of the whole input
    pub length: Length,
    // whether the large form accepts it
    pub fits_large: bool,
}

// An offset, the place behind the bytes to mark, and the row where it can be told.
#[derive(Clone, Copy)]
pub struct Spot {
    pub offset: usize,
    pub end: usize,
    pub row: Option<usize>,
}

impl Spot {
    // A byte.
    fn of_byte(offset: usize, row: Option<usize>) -> Spot {
        Spot {
            offset,
            end: offset.saturating_add(1),
            row,
        }
    }

    // The text from a place up to the next field separator or its line's end, and one byte at
    // least.
    fn of_text(message: &[u8], field: u8, offset: usize, row: usize) -> Spot {
        let bytes = text_from(message, offset, field).len().max(1);
        Spot {
            offset,
            end: offset.saturating_add(bytes),
            row: Some(row),
        }
    }

    // A row's kind, as far as it stands in the row's first line; the message's end where there is
    // no such row.
    fn of_row(message: &[u8], field: u8, row: usize) -> Spot {
        let place = row_place(message, row);
        if place.lines == 0 {
            return Spot::of_byte(message.len(), Some(row));
        }
        Spot::of_text(message, field, place.start, row)
    }

    // Field 7 of the first row, or that row's end where it has fewer.
    fn of_context(message: &[u8], field: u8) -> Spot {
        let header = Segment::at(message, field, 0);
        match header.from_field(CONTEXT) {
            Some(context) => Spot::of_text(message, field, context.start, 1),
            None => Spot::of_byte(text_end(message, header.end), Some(1)),
        }
    }

    // The bytes to mark; none where they are not within the message.
    pub fn bytes(self, message: &[u8]) -> &[u8] {
        message.get(self.offset..self.end).unwrap_or(b"")
    }
}

// Where a refused message is wrong.
pub fn spot_of(message: &[u8], refusal: Refusal) -> Spot {
    match Header::of(message) {
        Header::Sound(separators) => spot_in_rows(message, separators, refusal),
        Header::Broken => Spot::of_byte(spot_without_rows(message, refusal), None),
    }
}

// The offset where the header is broken, so that there are no rows: a message that is too long was
// not looked at, and else it is the header's.
fn spot_without_rows(message: &[u8], refusal: Refusal) -> usize {
    if refusal.number == Number::LONG_MESSAGE {
        return refusal.form.limits().bytes;
    }
    first_flaw(message)
}

// The same behind a sound header.
fn spot_in_rows(message: &[u8], separators: Separators, refusal: Refusal) -> Spot {
    let field = separators.field;
    let limits = refusal.form.limits();
    let place = refusal.place;
    match refusal.number {
        Number::LONG_MESSAGE => Spot::of_byte(limits.bytes, row_of(message, field, limits.bytes)),
        Number::CONTROL_BYTE | Number::LONG_LINE | Number::OPEN_LINE => {
            Spot::of_byte(place, row_of(message, field, place))
        }
        Number::MANY_SEGMENTS => Spot::of_row(message, field, limits.segments.saturating_add(1)),
        Number::NO_CONTEXT => Spot::of_context(message, field),
        Number::MANY_LEAVES => match row_past(message, separators, limits.leaves) {
            Some(row) => Spot::of_text(message, field, row.start, row.number),
            None => Spot::of_byte(message.len(), None),
        },
        _ => Spot::of_row(message, field, place),
    }
}
