// What stands in a message where something else should: a byte, or the name that a joined segment
// has there.
use crate::joined::Segment;
use crate::output::Line;

// The most bytes that are shown of what stands in the place of a name.
const SHOWN: usize = 20;

// A byte that stands where another should, by its sign and its number, and what it is.
pub fn put_instead(line: &mut Line, b: u8, what: &str) {
    line.put("; ");
    put_byte(line, b);
    write!(line, " stands there{what}");
}

// A byte by its sign and its number.
pub fn put_byte(line: &mut Line, b: u8) {
    line.put_shown(b);
    write!(line, " (byte {b})");
}

// What stands in a joined segment up to the next field separator, as far as it is shown; `nothing`
// where nothing does.
pub fn put_joined(line: &mut Line, segment: Segment<'_>) {
    let field = segment.field;
    let letters = segment.bytes().take_while(|(_, b)| *b != field).take(SHOWN);
    for (_, b) in letters {
        line.put_shown(b);
    }
    let shown = segment
        .bytes()
        .take_while(|(_, b)| *b != field)
        .take(SHOWN)
        .count();
    match shown {
        0 => line.put("nothing"),
        SHOWN => line.put(".."),
        _ => {}
    }
}
