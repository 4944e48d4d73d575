// Counting a message's leaves without a table (S3, S4).
use crate::going::{Row, Rows};
use crate::header::HEADER;
use crate::joined::Segment;
use form::separators::Separators;

// The leaves of the first row that its header makes up: H, the separators, and the field behind
// them (S4).
const HEADER_LEAVES: usize = 3;

// How many leaves a message has.
pub fn count_leaves(message: &[u8], separators: Separators) -> usize {
    let rows = Rows::of(message).map(|row| leaves_of_row(message, separators, row));
    rows.fold(0, usize::saturating_add)
}

// The first row of a message with which its leaves pass a limit.
pub fn row_past(message: &[u8], separators: Separators, limit: usize) -> Option<Row> {
    let mut leaves = 0usize;
    for row in Rows::of(message) {
        leaves = leaves.saturating_add(leaves_of_row(message, separators, row));
        if limit < leaves {
            return Some(row);
        }
    }
    None
}

// The leaves of a row: one more than its splitting bytes (S3); in the first row the header's bytes
// split nothing (S4).
fn leaves_of_row(message: &[u8], separators: Separators, row: Row) -> usize {
    let (start, whole) = if row.start == 0 {
        (HEADER, HEADER_LEAVES)
    } else {
        (row.start, 1)
    };
    let segment = Segment {
        message,
        field: separators.field,
        start,
        end: row.end,
    };
    let splits = segment
        .bytes()
        .filter(|(_, b)| is_split(separators, *b))
        .count();
    splits.saturating_add(whole)
}

// Whether a byte is one of the four separators that split; the escape is none of them (S3).
fn is_split(separators: Separators, b: u8) -> bool {
    b == separators.field
        || b == separators.subfield
        || b == separators.repeater
        || b == separators.subsubfield
}
