// What was expected where a kind or the context is unknown (S1, C1), and what stands there instead.
use crate::instead::put_joined;
use crate::joined::Segment;
use crate::names::{EVERY_KIND, put_contexts, put_kinds};
use crate::output::Line;
use crate::place::CONTEXT;

// The kinds that there are, and what stands there instead.
pub fn put_known(line: &mut Line, message: &[u8], field: u8, start: usize) {
    line.put("one of the kinds ");
    put_kinds(line, EVERY_KIND);
    line.put("; ");
    put_joined(line, Segment::at(message, field, start));
    line.put(" stands there");
}

// The contexts that there are, and what stands there instead.
pub fn put_named(line: &mut Line, message: &[u8], field: u8) {
    line.put("in field 7 of H (7.7) one of the contexts ");
    put_contexts(line);
    line.put("; ");
    let header = Segment::at(message, field, 0);
    let fields = header.count_fields();
    if fields < CONTEXT {
        write!(line, "H has only {fields} fields");
        return;
    }
    match header.from_field(CONTEXT) {
        Some(context) => put_joined(line, context),
        None => line.put("nothing"),
    }
    line.put(" stands there");
}
