// What is shown of an accepted message: a line a row, with its number, the number of its first line
// in the file, and what people look for in it.
ghost use Rattle.std.specs.Prelude.{◌≤◌};

use crate::advised::{READ_LETTERS, write_advice};
use crate::fields::put_fields;
use crate::going::{Row, Rows, count_ends, count_lines};
use crate::lookup::{Table, TableRow};
use crate::names::put_kind;
use crate::output::Line;
use crate::reason::write_accepted;
use crate::unicode::count_characters;
use itoa::Buffer;
use std::iter::successors;

// What each owner in a row's chain moves it to the right, and the longest chain that is shown: no
// level is deeper than 4, with a C below it (O1).
const STEP: &str = "  ";

const DEEPEST: usize = 8;

// The columns' headings.
const ROW: &str = "row";

const LINE: &str = "line";

// How wide the columns of numbers are, and the whole line.
#[derive(Clone, Copy)]
struct Columns {
    row: usize,
    line: usize,
    width: usize,
}

// Writes the verdict and a line for each row.
pub fn write_message(rt: &impl Print, message: &[u8], table: Table<'_>, width: usize) {
    let columns = Columns {
        row: count_digits(table.card.segments).max(ROW.len()),
        line: count_digits(count_ends(message)).max(LINE.len()),
        width,
    };
    write_accepted(rt, table.card, count_lines(message), message.len());
    write_heading(rt, columns);
    write_rows(rt, message, table, columns);
    write_letters(rt, message);
}

// How many digits a number has.
fn count_digits(n: usize) -> usize {
    let mut digits = Buffer::new();
    digits.format(n).len()
}

// Advice on a message whose letters are in UTF-8, though it is accepted: all of it reads as UTF-8,
// and some letters have several bytes.
fn write_letters(rt: &impl Print, message: &[u8]) {
    if count_characters(message).is_some_and(|count| count < message.len()) {
        Line::whole().write_whole(rt);
        write_advice(rt, READ_LETTERS);
    }
}

// An empty line, and the columns' headings.
fn write_heading(rt: &impl Print, columns: Columns) {
    Line::whole().write_whole(rt);
    let mut line = Line::whole();
    let (row, number) = (columns.row, columns.line);
    write!(line, "{ROW:>row$}  {LINE:>number$}");
    line.write_whole(rt);
}

// A line for each row. The rows are those of the table, gone through in the file.
fn write_rows(rt: &impl Print, message: &[u8], table: Table<'_>, columns: Columns) {
    let mut first = 1usize;
    for row in Rows::of(message) {
        write_row(rt, table.row(row.number), row, first, columns);
        let part = message.get(row.start..row.end).unwrap_or(b"");
        first = first.saturating_add(count_ends(part));
    }
}

// The line of a row, whose first line has a number in the file.
fn write_row(rt: &impl Print, filed: TableRow<'_>, row: Row, first: usize, columns: Columns) {
    let mut line = Line::within(columns.width);
    let (width, digits) = (columns.row, columns.line);
    let number = row.number;
    write!(line, "{number:>width$}  {first:>digits$}  ");
    for _ in 0..count_owners(filed) {
        line.put(STEP);
    }
    put_kind(&mut line, filed.kind());
    let lines = row.lines;
    if 1 < lines {
        write!(line, " ({lines} lines)");
    }
    put_fields(&mut line, filed);
    line.write_cut(rt);
}

// How many owners a row has, one above the other.
fn count_owners(filed: TableRow<'_>) -> usize
    ensures { result ≤ 8 }
{
    successors(filed.owner(), |owner| owner.owner())
        .take(DEEPEST)
        .count()
}
