// Where lines and texts begin and end around a place of a message.
use crate::text::{CR, SPACE};
use line::finder::low_end;

// The place where the line begins that an offset lies in: behind the last CR before it.
pub fn line_start(message: &[u8], offset: usize) -> usize {
    let Some(before) = message.get(..offset) else {
        return message.len();
    };
    before.iter().rposition(|b| *b == CR).map_or(0, |at| at + 1)
}

// The place where it ends: that of the next CR from the offset on, or the message's end.
pub fn line_stop(message: &[u8], offset: usize) -> usize {
    let mut places = message.iter().enumerate().skip(offset);
    places
        .find(|(_, b)| **b == CR)
        .map_or(message.len(), |(at, _)| at)
}

// The text that begins at a place, up to the next control byte, or a byte that is given, or the
// message's end; none past that.
pub fn text_from(message: &[u8], from: usize, stop: u8) -> &[u8] {
    let Some(rest) = message.get(from..) else {
        return b"";
    };
    let length = rest.iter().position(|b| *b < SPACE || *b == stop);
    &rest[..length.unwrap_or(rest.len())]
}

// The place behind a line's last byte of text, before an end: control bytes at the end are passed.
pub fn text_end(message: &[u8], end: usize) -> usize {
    let Some(before) = message.get(..end) else {
        return message.len();
    };
    before
        .iter()
        .rposition(|b| SPACE <= *b)
        .map_or(0, |at| at + 1)
}

// The text of the line that an offset lies in. Control bytes in front of it, which are skipped, do
// not belong to it.
pub fn line_text(message: &[u8], offset: usize) -> &[u8] {
    text_from(message, text_start(message, offset), CR)
}

// The place where the text begins that an offset lies in: behind the last control byte before it.
pub fn text_start(message: &[u8], offset: usize) -> usize {
    low_end(message, line_start(message, offset))
}
