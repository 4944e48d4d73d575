// The line of a message that is wrong, and a mark under the place. A long line is shown as far as
// there is room around it.
use crate::edges::{line_start, line_stop};
use crate::output::Line;
use crate::place::Spot;
use crate::text::{CR, count_columns};

// The columns at least that are kept for the place and what stands behind it.
const BEHIND: usize = 24;

// Writes the line around a spot, from CR to CR, and under it the mark.
pub fn write_excerpt(rt: &impl Print, message: &[u8], spot: Spot, width: usize) {
    let mut line = Line::within(width);
    let before = part(message, line_start(message, spot.offset), spot.offset);
    put_before(&mut line, before, width.saturating_sub(BEHIND));
    let from = line.columns();
    put_marked(&mut line, message, spot);
    let to = line.columns().min(width);
    let stop = line_stop(message, spot.offset);
    line.put_text(part(message, spot.end.min(stop), stop));
    line.write_cut(rt);
    write_mark(rt, from, to);
}

// The bytes from one place up to another; none where the places are not in order or not within the
// message.
fn part(message: &[u8], from: usize, to: usize) -> &[u8] {
    message.get(from..to).unwrap_or(b"")
}

// The end of the line before the spot that takes no more than so many columns, with dots where it
// does not begin with the line.
fn put_before(line: &mut Line, before: &[u8], room: usize) {
    let hidden = before.len().saturating_sub(count_fitting(before, room));
    line.put("  ");
    if 0 < hidden {
        line.put("..");
    }
    line.put_text(&before[hidden..]);
}

// How many bytes at the end of a text take no more than so many columns.
fn count_fitting(text: &[u8], room: usize) -> usize {
    let columns = text.iter().rev().map(|b| count_columns(*b));
    let fitting = columns.scan(room, |left, columns| {
        *left = left.checked_sub(columns)?;
        Some(())
    });
    fitting.count()
}

// The bytes to mark: at a line's end its CR, and a sign of its own for the message's end.
fn put_marked(line: &mut Line, message: &[u8], spot: Spot) {
    let stop = line_stop(message, spot.offset);
    if message.len() <= spot.offset {
        line.put("<END>");
    } else if stop <= spot.offset {
        line.put_shown(CR);
    } else {
        line.put_text(part(message, spot.offset, spot.end.min(stop)));
    }
}

// Writes the mark, from one column up to another.
fn write_mark(rt: &impl Print, from: usize, to: usize) {
    let mut line = Line::whole();
    line.put_times(b' ', from);
    line.put_times(b'^', to.saturating_sub(from));
    line.write_whole(rt);
}
