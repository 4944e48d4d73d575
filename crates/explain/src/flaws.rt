// What was expected of a header that is broken (H1, H2), and what stands there instead.
use crate::header::{FIELD, Flaw, flaw_at};
use crate::instead::{put_byte, put_instead};
use crate::output::Line;

// What the byte at a place of the header should be, and what is wrong with it.
pub fn put_header(line: &mut Line, message: &[u8], offset: usize) {
    put_role(line, offset);
    let b = message.get(offset).copied().unwrap_or(0);
    match flaw_at(message, offset) {
        Some(Flaw::Missing) => {
            let bytes = message.len();
            write!(
                line,
                "; a header has seven bytes, and the message has {bytes}"
            );
        }
        Some(Flaw::NoH | Flaw::NoField) => put_instead(line, b, ""),
        Some(Flaw::Letter) => put_instead(line, b, ", a letter"),
        Some(Flaw::Digit) => put_instead(line, b, ", a digit"),
        Some(Flaw::Control) => put_instead(line, b, ", a control byte"),
        Some(Flaw::Space) => put_instead(line, b, ", a space"),
        Some(Flaw::Above) => put_instead(line, b, ", above 126"),
        Some(Flaw::Same(earlier)) => put_same(line, b, earlier),
        None => {}
    }
}

// What a byte of a header is for, and what a separator may be.
fn put_role(line: &mut Line, offset: usize) {
    match offset {
        0 => line.put("H at the message's front"),
        1..=5 => {
            line.put(separator_name(offset));
            line.put(
                " behind H, a byte from 33 to 126 that is no letter, no digit and no other separator",
            );
        }
        _ => line.put("the field separator again as the seventh byte"),
    }
}

// The separator at a place of a header.
fn separator_name(offset: usize) -> &'static str {
    match offset {
        FIELD => "the field separator",
        2 => "the subfield separator",
        3 => "the repeater",
        4 => "the escape",
        _ => "the sub-subfield separator",
    }
}

// A separator that is the same as an earlier one.
fn put_same(line: &mut Line, b: u8, earlier: usize) {
    line.put("; ");
    put_byte(line, b);
    let name = separator_name(earlier);
    write!(line, " stands there, which is {name} already");
}
