// Where a row stands in its message (E1 to E3), for row numbers as the reader counts them.
ghost use Rattle.std.specs.Prelude.{[], ◌≡◌, ◌≤◌, length, MatchOption};
ghost use Rattle.form.specs.Forms.{small_form};
ghost use Rattle.line.specs.Joining.{addendum};
ghost use Rattle.line.specs.Finding.{found_at};
ghost use Rattle.source.specs.Places.{named_field, lines_from, row_by, row_at, place_of_row};
ghost use Rattle.source.specs.inner.Going.{behind_addendum, addenda_from};

use line::finder::{Found, line_at};

// Where a row stands: the offset at which its first line begins, and how many lines it takes. Both are 0 where there is no such row.
// kept (C): zeros and no Option, since the public `row_place` ensures `place_of_row`, which says them.
#[derive(Clone, Copy)]
pub struct RowPlace {
    pub start: usize,
    pub lines: usize,
}

// Lines that follow one another: how many, and the place behind them, where the next line begins.
// kept (C): 0 lines and no Option, since the public `row_at` ensures `row_at` of `specs/Places.antt`, which says them.
#[derive(Clone, Copy)]
pub struct LineRun {
    pub lines: usize,
    pub next: usize,
}

// The answer where there is no such row.
const NO_ROW: RowPlace = RowPlace { start: 0, lines: 0 };

// The place of a row, counted from 1, in any message of any length (E1). Of a message that is refused, the rows are those of its lines before the
// first fault. Of a form's limits a line is judged by `line` alone, which is the same in both forms.
pub fn row_place(message: &[u8], row: usize) -> RowPlace
    ensures { result ≡ place_of_row small_form message.now row }
{
    if row == 0 {
        return NO_ROW;
    }
    let field = field_of(message);
    let mut at = addenda_at(message, field, 0).next;
    for _number in 1..row {
        let Some(here) = row_from(message, field, at) else {
            return NO_ROW;
        };
        at = here.next;
    }
    match row_from(message, field, at) {
        Some(here) => RowPlace {
            start: at,
            lines: here.lines,
        },
        None => NO_ROW,
    }
}

// The line at a place of a message and the addenda behind it (E2), which is the row that begins there; no lines where no line is there. Who goes
// through a message asks this of one row after the other, and each line is looked at twice at most.
pub fn row_at(message: &[u8], at: usize) -> LineRun
    ensures { result ≡ row_at small_form message.now at }
{
    row_from(message, field_of(message), at).unwrap_or(LineRun { lines: 0, next: at })
}

// The row that begins at a place, by a field separator that is known; none where no line is there.
fn row_from(message: &[u8], field: u8, at: usize) -> Option<LineRun>
    ensures { MatchOption result (lines_from small_form message.now at ≡ [])
        (λ run. (run ≡ row_by small_form field message.now at) × (1 ≤ run.lines)) }
{
    let Found::Line { end: _, next } = line_at(message, at) else {
        return None;
    };
    let behind = addenda_at(message, field, next);
    Some(LineRun {
        lines: behind.lines + 1,
        next: behind.next,
    })
}

// The addenda that stand at a place, one behind the other (A1). They are never more than the message has bytes.
fn addenda_at(message: &[u8], field: u8, at: usize) -> LineRun
    ensures { (result ≡ addenda_from small_form field message.now at) × (result.lines ≤ length message.now) }
{
    let mut next = at;
    let mut lines = 0;
    while let Some(behind) = behind_addendum(message, field, next) {
        next = behind;
        lines += 1;
    }
    LineRun { lines, next }
}

// The place behind the addendum at a place; none where none stands there.
fn behind_addendum(message: &[u8], field: u8, at: usize) -> Option<usize>
    ensures { result ≡ behind_addendum field message.now at (found_at small_form message.now at) }
{
    let Found::Line { end, next } = line_at(message, at) else {
        return None;
    };
    if is_addendum(&message[at..end], field) {
        Some(next)
    } else {
        None
    }
}

// Whether a line is an addendum (A1).
pub fn is_addendum(line: &[u8], field: u8) -> bool
    ensures { result ≡ addendum field line.now }
{
    line.starts_with(&[b'A', field])
}

// The field separator that a message names (H1): its second byte, and 0, which no line has, where there is none.
fn field_of(message: &[u8]) -> u8
    ensures { result ≡ named_field message.now }
{
    message.get(1).copied().unwrap_or(0)
}
