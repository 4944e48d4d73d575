// What was expected where a kind stands that may not, or the message breaks off (C2, C3, V1), and
// what stands there instead.
use crate::going::Rows;
use crate::instead::put_joined;
use crate::joined::Segment;
use crate::names::{count_kinds, put_a_context, put_kind, put_kinds};
use crate::output::Line;
use crate::place::CONTEXT;
use form::context::Context;
use order::followers;
use order::watcher::Watcher;

// The kinds that may come at a row's place, and what stands there instead.
pub fn put_order(line: &mut Line, message: &[u8], field: u8, offset: usize) {
    put_next(line, watch_rows(message, field, offset));
    if message.len() <= offset {
        line.put("; the message ends there, and L must end it");
        return;
    }
    line.put("; ");
    put_joined(line, Segment::at(message, field, offset));
    line.put(" stands there");
}

// The kinds that may come next, and behind which kind, C aside, of which context; the message's end
// where none may come.
fn put_next(line: &mut Line, watcher: Watcher) {
    let kinds = watcher.next_kinds();
    if count_kinds(kinds) == 0 {
        line.put("the message's end");
    }
    put_kinds(line, kinds);
    line.put(", after ");
    put_kind(line, watcher.last);
    line.put(" in ");
    put_a_context(line, watcher.context);
}

// The context of a message (C1), or 0, which is no context, where it has none.
// kept (C): `Context::of` gives a number, and `Watcher::begin` takes it
fn context_of(message: &[u8], field: u8) -> u8 {
    let Some(context) = Segment::at(message, field, 0).from_field(CONTEXT) else {
        return 0;
    };
    let name = context.letters();
    Context::of(name.length, name.first, name.second, name.third)
}

// A watcher that was told the kinds of the rows before a place.
fn watch_rows(message: &[u8], field: u8, stop: usize) -> Watcher {
    let followers = followers::table();
    let mut watcher = Watcher::begin(context_of(message, field));
    for row in Rows::of(message).take_while(|row| row.start < stop) {
        // kept (speed): `Segment::at` would look for the row's end a second time
        let segment = Segment {
            message,
            field,
            start: row.start,
            end: row.end,
        };
        watcher = watcher.tell_by(&followers, segment.kind()).watcher;
    }
    watcher
}
