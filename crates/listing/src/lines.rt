// The lines of a listing.
ghost use Rattle.std.specs.Prelude.{◌++◌, ◌+◌, ◌*◌, ◌≤◌, length};
ghost use Rattle.listing.specs.Decimal.{decimal};
ghost use Rattle.listing.specs.Listing.{and_number, columns, row_line, row_lines, answer_lines, context_line, count_lines, entry_of};
ghost use Rattle.listing.specs.inner.Putting.{Wrote, NumberReady, RowReady, RowsReady};

use crate::put::Pen;
use table::{Card, rows};

const LF: u8 = b'\n';

// A line of a name, with its `=`, and a number.
fn put_entry(pen: &mut Pen, name: &[u8], n: usize)
    requires { pen.old.at + length name.now + 21 ≤ length pen.old.output.now }
    ensures { Wrote (length name.now + 21) pen.old (entry_of name.now (decimal n)) pen.new }
{
    pen.text(name);
    pen.number(n);
    pen.byte(LF);
}

// A comma and a number of a row, which has five digits at most.
fn put_next(pen: &mut Pen, n: rows::Entry)
    requires { NumberReady n pen.old.output.now pen.old.at }
    ensures { Wrote 6 pen.old (and_number n) pen.new }
{
    pen.byte(b',');
    pen.number(n as usize);
}

// The kind, owner, first leaf and leaf count of row i of the segment rows, counted from 0, a comma before each.
fn put_columns(pen: &mut Pen, segments: &[rows::Entry], i: usize)
    requires { RowReady segments.now i pen.old.output.now pen.old.at 22 }
    ensures { Wrote 22 pen.old (columns segments.now i) pen.new }
{
    let row = i * rows::SEGMENT_ROW;
    pen.byte(b',');
    pen.kind(segments[row]);
    put_next(pen, segments[row + rows::OWNER]);
    put_next(pen, segments[row + rows::FIRST]);
    put_next(pen, segments[row + rows::COUNT]);
}

// The line of row i.
fn put_row(pen: &mut Pen, segments: &[rows::Entry], i: usize)
    requires { RowReady segments.now i pen.old.output.now pen.old.at 32 }
    ensures { Wrote 32 pen.old (row_line segments.now i) pen.new }
{
    pen.text(b"seg=");
    pen.number(i + 1);
    put_columns(pen, segments, i);
    pen.byte(LF);
}

// The lines of so many rows.
pub(crate) fn put_rows(pen: &mut Pen, segments: &[rows::Entry], count: usize)
    requires { RowsReady segments.now count pen.old.output.now pen.old.at (count * 32) }
    ensures { Wrote (count * 32) pen.old (row_lines segments.now count) pen.new }
{
    for i in 0..count {
        put_row(pen, segments, i);
    }
}

// The first three lines: the listing's version, a number and its place.
pub(crate) fn put_answer(pen: &mut Pen, number: u8, place: usize)
    requires { pen.old.at + 64 ≤ length pen.old.output.now }
    ensures { Wrote 64 pen.old (answer_lines number place) pen.new }
{
    pen.text(b"form=1\n");
    put_entry(pen, b"answer=", number as usize);
    put_entry(pen, b"place=", place);
}

// The line of a context.
fn put_context_line(pen: &mut Pen, context: u8)
    requires { pen.old.at + 12 ≤ length pen.old.output.now }
    ensures { Wrote 12 pen.old (context_line context) pen.new }
{
    pen.text(b"context=");
    pen.context(context);
    pen.byte(LF);
}

// The lines of a card, and of the bytes that the writer would give.
pub(crate) fn put_counts(pen: &mut Pen, card: Card, size: usize)
    requires { pen.old.at + 128 ≤ length pen.old.output.now }
    ensures { Wrote 128 pen.old (count_lines card size) pen.new }
{
    put_context_line(pen, card.context);
    put_entry(pen, b"segments=", card.segments);
    put_entry(pen, b"leaves=", card.leaves);
    put_entry(pen, b"text=", card.text);
    put_entry(pen, b"written=", size);
}
