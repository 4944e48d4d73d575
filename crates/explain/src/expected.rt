// What was expected at the place of a refusal, and what stands there instead.
use crate::edges::line_text;
use crate::flaws::put_header;
use crate::going::Rows;
use crate::instead::put_instead;
use crate::known::{put_known, put_named};
use crate::leaves::count_leaves;
use crate::output::Line;
use crate::place::{Refusal, Spot};
use crate::rest::Length;
use crate::sequence::put_order;
use form::forms::Form;
use form::number::Number;
use form::separators::{Header, Separators};

// Writes what was expected.
pub fn write_expected(rt: &impl Print, message: &[u8], refusal: Refusal, spot: Spot) {
    let mut line = Line::whole();
    line.put("expected: ");
    match refusal.number {
        Number::LONG_MESSAGE => put_length(&mut line, refusal),
        Number::BROKEN_HEADER => put_header(&mut line, message, spot.offset),
        Number::CONTROL_BYTE => put_control(&mut line, message, spot.offset),
        Number::LONG_LINE => put_line(&mut line, message, refusal.form, spot.offset),
        Number::OPEN_LINE => line.put(
            "CR (byte 13) at the end of each line, the last one too; the message ends without it",
        ),
        _ => if let Header::Sound(separators) = Header::of(message) {
            put_in_rows(&mut line, message, separators, refusal, spot);
        },
    }
    line.write_whole(rt);
}

// The same where it is about rows, so that the header is sound.
fn put_in_rows(
    line: &mut Line,
    message: &[u8],
    separators: Separators,
    refusal: Refusal,
    spot: Spot,
) {
    let field = separators.field;
    match refusal.number {
        Number::MANY_SEGMENTS => put_segments(line, message, refusal.form),
        Number::UNKNOWN_KIND => put_known(line, message, field, spot.offset),
        Number::NO_CONTEXT => put_named(line, message, field),
        Number::MISPLACED => put_order(line, message, field, spot.offset),
        Number::MANY_LEAVES => put_leaves(line, message, separators, refusal.form),
        _ => {}
    }
}

// 2: the most bytes, and how many there are.
fn put_length(line: &mut Line, refusal: Refusal) {
    let limit = refusal.form.limits().bytes;
    let form = form_name(refusal.form);
    write!(
        line,
        "at most {limit} bytes in the {form} form, and the message has "
    );
    match refusal.length {
        Length::Exactly(bytes) => write!(line, "{bytes}"),
        Length::AtLeast(bytes) => write!(line, "{bytes} or more"),
    }
}

// The name of a form.
fn form_name(form: Form) -> &'static str {
    match form {
        Form::Small => "small",
        Form::Large => "large",
    }
}

// 4: which bytes a line has.
fn put_control(line: &mut Line, message: &[u8], offset: usize) {
    line.put("only bytes of 32 or more inside a line, and CR (byte 13) at its end");
    put_instead(line, message.get(offset).copied().unwrap_or(0), "");
}

// 5: the most bytes of a line, and how many this one has.
fn put_line(line: &mut Line, message: &[u8], form: Form, offset: usize) {
    let limit = form.limits().line;
    let bytes = line_text(message, offset).len();
    write!(
        line,
        "at most {limit} bytes in a line before its CR, and this one has {bytes}"
    );
}

// 7: the most segments, and how many there are.
fn put_segments(line: &mut Line, message: &[u8], form: Form) {
    let limit = form.limits().segments;
    let name = form_name(form);
    let rows = Rows::of(message).count();
    write!(
        line,
        "at most {limit} segments (rows) in the {name} form, and the message has {rows}"
    );
}

// 11: the most leaves, and how many there are.
fn put_leaves(line: &mut Line, message: &[u8], separators: Separators, form: Form) {
    let limit = form.limits().leaves;
    let name = form_name(form);
    let leaves = count_leaves(message, separators);
    write!(
        line,
        "at most {limit} leaves in the {name} form, and the message has {leaves}"
    );
}
