// Going through a message from row to row. Places are offsets in the message; a row's end is the
// place where the next row begins.
ghost use Rattle.std.specs.Prelude.{◌-◌};
ghost use Rattle.std.specs.Iterator.{at_most};

use crate::text::CR;
use source::row::{is_addendum, row_at};

// The rows of a message, up to its first fault.
#[derive(Drop)]
pub struct Rows<'a> {
    message: &'a [u8],
    at: usize,
    end: usize,
    // how many were given
    count: usize,
}

// A row: its number, counted from 1, where it begins and ends, and how many lines it takes.
#[derive(Clone, Copy)]
pub struct Row {
    pub number: usize,
    pub start: usize,
    pub end: usize,
    pub lines: usize,
}

impl<'a> Rows<'a> {
    pub fn of(message: &'a [u8]) -> Rows<'a> {
        Rows {
            message,
            at: 0,
            end: message.len(),
            count: 0,
        }
    }
}

impl Iterator for Rows<'_> {
    type Item = Row;

    ghost remaining = { λ s. at_most (s.end - s.at) };

    fn next(&mut self) -> Option<Row> {
        let start = self.at;
        if self.end <= start {
            return None;
        }
        let run = row_at(self.message, start);
        if run.next <= start {
            return None;
        }
        self.at = run.next;
        self.count = self.count.saturating_add(1);
        Some(Row {
            number: self.count,
            start,
            end: run.next,
            lines: run.lines,
        })
    }
}

// How many lines its rows take: lines that are not blank, addenda among them.
pub fn count_lines(message: &[u8]) -> usize {
    Rows::of(message)
        .map(|row| row.lines)
        .fold(0, usize::saturating_add)
}

// How many line ends a part of a message has.
pub fn count_ends(part: &[u8]) -> usize {
    part.iter().filter(|b| **b == CR).count()
}

// The number of the row whose line an offset lies in; none where a line before it is broken, so
// that rows cannot be counted up to there.
pub fn row_of(message: &[u8], field: u8, offset: usize) -> Option<usize> {
    // kept (speed): one pass over the rows, and no further than the offset
    let mut before = 0;
    let mut end = 0;
    for row in Rows::of(message) {
        if offset < row.end {
            return Some(row.number);
        }
        before = row.number;
        end = row.end;
    }
    if message.len() <= end {
        return Some(before);
    }
    // the line at the end is broken: the offset lies in it or behind it
    let broken = message.get(end..)?;
    if 0 < count_ends(message.get(end..offset)?) {
        return None;
    }
    // a broken addendum carries the row before it on
    Some(if is_addendum(broken, field) {
        before
    } else {
        before.saturating_add(1)
    })
}
