// What to do about a refusal, where the bytes show a cause.
use crate::advised;
use crate::edges::{text_from, text_start};
use crate::header::{FIELD, Flaw, first_flaw, flaw_at};
use crate::letters::{
    is_context_in_capitals, is_context_with_more, is_kind_in_capitals, is_kind_with_space,
};
use crate::place::{Refusal, Spot};
use crate::text::{FS, LF, SPACE, TAB, VT};
use crate::unicode::count_characters;
use form::number::Number;
use form::separators::Header;
use line::finder::low_end;
use source::row::row_at;

// The advice on a refusal, by its number; none where nothing is certain.
pub fn advice_on(message: &[u8], refusal: Refusal, spot: Spot) -> Option<&'static str> {
    match refusal.number {
        Number::LONG_MESSAGE | Number::MANY_SEGMENTS | Number::MANY_LEAVES => {
            refusal.fits_large.then_some(advised::LARGE_FORM)
        }
        Number::BROKEN_HEADER => advice_on_header(message),
        Number::CONTROL_BYTE => advice_on_control(message, spot.offset),
        Number::LONG_LINE => {
            Some(advice_on_line(message, refusal.form.limits().line, spot.offset))
        }
        Number::OPEN_LINE => Some(advice_on_end(message)),
        Number::UNKNOWN_KIND => advice_on_kind(message, spot),
        Number::NO_CONTEXT => advice_on_context(spot.bytes(message)),
        Number::MISPLACED => advice_on_order(message, spot.offset),
        _ => None,
    }
}

// A broken header: what the file is instead, told by its first bytes.
fn advice_on_header(message: &[u8]) -> Option<&'static str> {
    if message.is_empty() {
        Some(advised::EMPTY_FILE)
    } else if is_foreign(message) {
        Some(advised::FOREIGN)
    } else if message.starts_with(b"\xEF\xBB\xBF") {
        Some(advised::MARK)
    } else if is_wide(message) {
        Some(advised::WIDE)
    } else if message.starts_with(b"\x0B") {
        Some(advised::FRAME)
    } else {
        advice_on_front(message)
    }
}

// The same where the file is nothing else: it breaks off, or something stands before the H.
fn advice_on_front(message: &[u8]) -> Option<&'static str> {
    if let Some(Flaw::Missing) = flaw_at(message, first_flaw(message)) {
        return Some(advised::CUT_OFF);
    }
    // behind the spaces and control bytes that it begins with
    let front = message.iter().position(|b| SPACE < *b)?;
    begins_message(message, front).then_some(advised::AHEAD)
}

// Whether a file is a message of HL7, also behind a frame's first byte or a byte order mark.
fn is_foreign(message: &[u8]) -> bool {
    message.starts_with(b"MSH")
        || message.starts_with(b"\x0BMSH")
        || message.starts_with(b"\xEF\xBB\xBFMSH")
}

// Whether a file is in UTF-16: it begins with that mark, either way round, or has a NUL beside its
// H.
fn is_wide(message: &[u8]) -> bool {
    message.starts_with(b"\xFF\xFE")
        || message.starts_with(b"\xFE\xFF")
        || message.starts_with(b"\x00H\x00")
        || message.starts_with(b"H\x00")
}

// Whether a header stands at a place of a message.
fn begins_message(message: &[u8], at: usize) -> bool {
    let Some(rest) = message.get(at..) else {
        return false;
    };
    matches!(Header::of(rest), Header::Sound(_))
}

// A control byte inside a line, by which it is. Behind a frame's byte another message may follow.
fn advice_on_control(message: &[u8], offset: usize) -> Option<&'static str> {
    match *message.get(offset)? {
        LF => Some(advised::LINE_FEEDS),
        TAB => Some(advised::TABS),
        VT | FS if begins_message(message, low_end(message, offset)) => {
            Some(advised::FRAME_BETWEEN)
        }
        VT | FS => Some(advised::FRAME_INSIDE),
        _ => None,
    }
}

// A line that is too long: its letters may take more bytes than they should.
fn advice_on_line(message: &[u8], limit: usize, offset: usize) -> &'static str {
    let text = text_from(message, text_start(message, offset), 0);
    if count_characters(text).is_some_and(|count| count <= limit) {
        advised::LETTERS
    } else {
        advised::LONG_LINE
    }
}

// A last line without its end: where it is the L, alone or before a field separator, nothing else
// is missing.
fn advice_on_end(message: &[u8]) -> &'static str {
    let start = text_start(message, message.len());
    if text_from(message, start, field_of(message)) == b"L".as_slice() {
        advised::LAST_END
    } else {
        advised::CUT_OFF
    }
}

// The field separator of a message, or 0 where it ends before it.
fn field_of(message: &[u8]) -> u8 {
    message.get(FIELD).copied().unwrap_or(0)
}

// A kind that is unknown.
fn advice_on_kind(message: &[u8], spot: Spot) -> Option<&'static str> {
    let text = spot.bytes(message);
    if begins_message(message, spot.offset) {
        Some(advised::TWO_MESSAGES)
    } else if is_kind_in_capitals(text) {
        Some(advised::SMALL_LETTERS)
    } else if is_kind_with_space(text) {
        Some(advised::SPACE_BESIDE)
    } else if has_field(message, spot.offset) {
        None
    } else {
        Some(advised::NO_ADDENDUM)
    }
}

// Whether a row has a field separator in its first line, or further lines: then its first line is
// no piece of another row's text.
fn has_field(message: &[u8], start: usize) -> bool {
    let field = field_of(message);
    let behind = start.saturating_add(text_from(message, start, field).len());
    message.get(behind) == Some(&field) || 1 < row_at(message, start).lines
}

// A context that is unknown.
fn advice_on_context(text: &[u8]) -> Option<&'static str> {
    if is_context_in_capitals(text) {
        Some(advised::SMALL_CONTEXT)
    } else if is_context_with_more(text) {
        Some(advised::LONG_CONTEXT)
    } else {
        None
    }
}

// An order that is wrong: another message begins there, or this one ends.
fn advice_on_order(message: &[u8], offset: usize) -> Option<&'static str> {
    if message.len() <= offset {
        return Some(advised::CUT_OFF);
    }
    begins_message(message, offset).then_some(advised::TWO_MESSAGES)
}
