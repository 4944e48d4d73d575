// The first line of an explanation: the verdict, in a line that can stand beside a file's name.
use crate::names::put_context;
use crate::output::Line;
use crate::place::{Refusal, Spot};
use form::number::Number;
use source::position::position_of;
use table::Card;

// Of an accepted message: its context, rows, lines and bytes.
pub fn write_accepted(rt: &impl Print, card: Card, lines: usize, bytes: usize) {
    let mut line = Line::whole();
    line.put("accepted: ");
    put_context(&mut line, card.context);
    let rows = card.segments;
    write!(line, ", {rows} rows in {lines} lines, {bytes} bytes");
    line.write_whole(rt);
}

// Of a refused one: number, reason and place.
pub fn write_refused(rt: &impl Print, message: &[u8], refusal: Refusal, spot: Spot) {
    let mut line = Line::whole();
    let number = refusal.number;
    let reason = reason(number, message.len() <= spot.offset);
    write!(line, "refused: {number}, {reason}");
    put_position(&mut line, message, spot);
    line.write_whole(rt);
}

// Line, column, offset and row of a spot; no row where none can be told.
fn put_position(line: &mut Line, message: &[u8], spot: Spot) {
    let position = position_of(message, spot.offset);
    let (number, column, offset) = (position.line, position.column, spot.offset);
    write!(line, ", at line {number}, column {column} (offset {offset}");
    if let Some(row) = spot.row {
        write!(line, ", row {row}");
    }
    line.put(")");
}

// What is wrong with the message, by the reader's number (N1). The order may be wrong at the
// message's end, too. The last words are for the numbers that no message of standard input has,
// since its buffers are long enough.
fn reason(number: u8, at_end: bool) -> &'static str {
    match number {
        Number::LONG_MESSAGE => "the message is too long",
        Number::BROKEN_HEADER => "the header is broken",
        Number::CONTROL_BYTE => "a control byte stands inside a line",
        Number::LONG_LINE => "a line is too long",
        Number::OPEN_LINE => "the last line is not ended by CR",
        Number::MANY_SEGMENTS => "the message has too many segments",
        Number::UNKNOWN_KIND => "a segment is of unknown kind",
        Number::NO_CONTEXT => "the context (7.7) is missing or unknown",
        Number::MISPLACED if at_end => "the message breaks off before its L segment",
        Number::MISPLACED => "a segment stands where it may not",
        Number::MANY_LEAVES => "the message has too many leaves",
        _ => "no table could be made of the message",
    }
}
