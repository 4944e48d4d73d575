// Names of kinds and contexts, by number (S1, C1), and lists of them.
use crate::output::Line;
use form::context::Context;
use form::kind::Kind;
use form::letters::Spelled;
use order::watcher::KINDS;

// How many contexts there are (C1).
const CONTEXTS: usize = 7;

// All kinds, in the form of a list: a 1 at the number of each, and no kind has 0.
// kept (C): this is the form in which `Watcher::next_kinds` gives a list of kinds
pub const EVERY_KIND: [u8; KINDS] = [0, 1, 1, 1, 1, 1, 1, 1, 1, 1, 1, 1, 1];

// The name of a kind; nothing where no kind has the number.
pub fn put_kind(line: &mut Line, kind: u8) {
    put_name(line, Kind::name(usize::from(kind)));
}

// The name of a context; nothing where no context has the number.
pub fn put_context(line: &mut Line, context: u8) {
    put_name(line, Context::name(usize::from(context)));
}

// The letters of a name; nothing where it counts more than it has, as no name of a kind or a
// context does.
fn put_name(line: &mut Line, name: Spelled) {
    if let Some(letters) = name.1.get(..name.0) {
        line.put_letters(letters);
    }
}

// The kinds at whose numbers there is a 1, as `OBR, P or C`; nothing where there is none.
pub fn put_kinds(line: &mut Line, kinds: [u8; KINDS]) {
    let count = count_kinds(kinds);
    let told = kinds.iter().enumerate().filter(|(_, told)| **told == 1);
    for (nth, (kind, _)) in told.enumerate() {
        line.put(joint(nth, count));
        put_name(line, Kind::name(kind));
    }
}

// How many kinds have a 1.
pub fn count_kinds(kinds: [u8; KINDS]) -> usize {
    kinds.iter().filter(|told| **told == 1).count()
}

// What stands before a name of a list, by how many are before it and how many there are: nothing
// before the first.
fn joint(before: usize, count: usize) -> &'static str {
    if before == 0 {
        ""
    } else if count.saturating_sub(before) == 1 {
        " or "
    } else {
        ", "
    }
}

// All contexts, as a list.
pub fn put_contexts(line: &mut Line) {
    for before in 0..CONTEXTS {
        line.put(joint(before, CONTEXTS));
        put_name(line, Context::name(before + 1));
    }
}

// A context's name with its article.
pub fn put_a_context(line: &mut Line, context: u8) {
    line.put(match context {
        Context::REG | Context::FAC => "a ",
        _ => "an ",
    });
    put_context(line, context);
}
