// The second pass: the text area, the leaf rows and the segment rows are filled. It runs only once nothing can be refused any more.
ghost use Rattle.std.specs.Prelude.{◌≡◌, ℕ, ◌+◌, ◌*◌, ◌<◌, ◌≤◌, length, get_or};
ghost use Rattle.std.proofs.lemmas.List.Edits.{sets};
ghost use Rattle.order.specs.inner.Levels.{level_in};
ghost use Rattle.table.specs.Rows.{segment_row_size, leaf_row_size, segment_row};
ghost use Rattle.read.specs.inner.Laying.{NextFits, LaysSorted};
ghost use Rattle.read.specs.inner.Filling.{table_in, Prepared, Filled};
ghost use Rattle.read.specs.inner.Segments.{kind_noted, Closable, ClosedBy, begun_after, HeaderPut, LineFilled};

use crate::codes::Accepted;
use crate::lay::{Laying, lay_line, put_leaf};
use crate::start::text_from;
use form::kind::Kind;
use form::separators::Separators;
use line::finder::low_end;
use order::level_table::PER_CONTEXT;
use order::owners::{PLACES, no_rows, owner_of};
use table::rows;
use table::rows::Entry;

// How far the second pass has come: its leaves, and the number of the open segment's first leaf.
#[derive(Clone, Copy)]
pub struct Filling {
    pub laying: Laying,
    pub first: usize,
}

// How far it has come with a line, and where the next one begins.
#[derive(Clone, Copy)]
pub struct Line {
    pub filling: Filling,
    pub next: usize,
}

// The row of a segment (T2): kind, owner, first leaf, leaf count.
fn put_segment(
    segments: &mut [Entry],
    row: usize,
    kind: u8,
    owner: Entry,
    first: Entry,
    count: Entry,
)
    requires { row * segment_row_size + segment_row_size ≤ length segments.old }
    ensures { segments.new ≡ sets segments.old (row * segment_row_size) (segment_row kind owner first count) }
{
    let at = row * rows::SEGMENT_ROW;
    segments[at..at + rows::SEGMENT_ROW].copy_from_slice(&[kind as Entry, owner, first, count]);
}

// The level of a kind (O1) in a context that is one: a message that is filled has one, so its segments do not ask it again.
fn level_here(levels: &[u8; 84], context: u8, kind: u8) -> u8
    requires { (1 ≤ context) × (context ≤ 7) }
    ensures { result ≡ level_in levels.now context kind }
{
    if Kind::L < kind {
        0
    } else {
        levels[(context as usize - 1) * PER_CONTEXT + kind as usize]
    }
}

// The open segment is closed: its last leaf and its own row are written. Its kind is the one that the survey noted.
fn close_segment(
    filling: Filling,
    kinds: &[u8],
    levels: &[u8; 84],
    context: u8,
    nearest: &mut [Entry; PLACES],
    segments: &mut [Entry],
    leaves: &mut [Entry],
)
    requires { Closable filling context kinds.now segments.old leaves.old }
    ensures { ClosedBy filling (kind_noted kinds.now filling) levels.now context
        nearest.old segments.old leaves.old
        nearest.new segments.new leaves.new }
{
    let laying = filling.laying;
    put_leaf(laying, leaves);
    let row = laying.segment - 1;
    // the number of the next segment's first leaf: behind the leaves closed before and this one, counted from 1
    let next = laying.row / rows::LEAF_ROW + 2;
    let kind = kinds[row];
    let owner = owner_of(
        nearest,
        laying.segment as Entry,
        kind,
        level_here(levels, context, kind),
    );
    put_segment(
        segments,
        row,
        kind,
        owner,
        filling.first as Entry,
        (next - filling.first) as Entry,
    );
}

// The first two leaves, `H` and the four bytes after the field separator (S4), and the third begun, which has no text yet.
fn put_header(separators: Separators, text: &mut [u8], leaves: &mut [Entry]) -> Filling
    requires { (5 ≤ length text.old) × (leaf_row_size + leaf_row_size ≤ length leaves.old) }
    ensures { HeaderPut separators text.old leaves.old result text.new leaves.new }
{
    text[..5].copy_from_slice(&[
        b'H',
        separators.subfield,
        separators.repeater,
        separators.escape,
        separators.subsubfield,
    ]);
    let name = Laying {
        row: 0,
        segment: 1,
        field: 1,
        repetition: 1,
        subfield: 1,
        subsubfield: 1,
        begin: 0,
        out: 1,
    };
    put_leaf(name, leaves);
    let stated = Laying {
        row: rows::LEAF_ROW,
        segment: 1,
        field: 2,
        repetition: 1,
        subfield: 1,
        subsubfield: 1,
        begin: 1,
        out: 5,
    };
    put_leaf(stated, leaves);
    Filling {
        laying: stated.next_leaf(1),
        first: 1,
    }
}

// The text of one line from `from` on, joined to the open segment (A1).
fn fill_line(
    class: &[u8; 256],
    field: u8,
    message: &[u8],
    from: usize,
    filling: Filling,
    text: &mut [u8],
    leaves: &mut [Entry],
) -> Line
    requires { LaysSorted class.now field message.now from filling.laying text.old leaves.old }
    ensures { LineFilled class.now message.now from filling text.old leaves.old
        result text.new leaves.new }
{
    let laid = lay_line(class, field, message, from, filling.laying, text, leaves);
    Line {
        filling: Filling {
            laying: laid.laying,
            ..filling
        },
        next: low_end(message, laid.end + 1),
    }
}

// The segment after the open one, which has been closed.
fn next_segment(filling: Filling) -> Filling
    requires { NextFits filling.laying }
    ensures { result ≡ begun_after filling }
{
    Filling {
        laying: filling.laying.next_segment(),
        first: filling.laying.row / rows::LEAF_ROW + 2,
    }
}

// The whole message, which no test refused; answers how many bytes of text its leaves have. Each turn fills one line, the header's rest
// the first: an addendum then carries the open segment on, anything else closes it. Lines are filled from this one place only, so that
// the filling is compiled into the loop and its state is not carried through memory.
pub(crate) fn fill(
    accepted: &Accepted,
    levels: &[u8; 84],
    text: &mut [u8],
    segments: &mut [Entry],
    leaves: &mut [Entry],
) -> usize
    requires { Prepared accepted.now.limits accepted.now.class.now accepted.now.kinds.now levels.now accepted.now.decision.separators
        accepted.now.decision.context accepted.now.message.now text.old segments.old leaves.old
        × ((i : ℕ) → get_or accepted.now.message.now i 0 < 256) }
    ensures { Filled (table_in accepted.now.limits levels.now accepted.now.decision.separators accepted.now.message.now)
        text.old segments.old leaves.old
        text.new segments.new leaves.new result }
{
    let class = accepted.class;
    let message = accepted.message;
    let separators = accepted.decision.separators;
    let mut nearest = no_rows();
    let mut filling = put_header(separators, text, leaves);
    let mut from = 7;
    // kept (plainer): where the next line begins is known only once this one was laid
    loop {
        let line = fill_line(
            class,
            separators.field,
            message,
            from,
            filling,
            text,
            leaves,
        );
        filling = line.filling;
        let at = line.next;
        from = text_from(message, at, separators.field);
        if from == at {
            close_segment(
                filling,
                accepted.kinds,
                levels,
                accepted.decision.context,
                &mut nearest,
                segments,
                leaves,
            );
            if message.len() <= at {
                return filling.laying.out;
            }
            filling = next_segment(filling);
        }
    }
}
